// Flags of tokens.
ghost use Rattle.std.specs.Prelude.{ℕ, ◌≡◌, ◌<◌, ◌==◌, ◌&&◌, false, true, length, get_or, nat_le, if◌then◌else◌};
ghost use Rattle.std.specs.List.{list_any};
ghost use Rattle.tidy_flags.specs.Flags.{flag_before};

/// Returns the flag of a token, or `false` if it has none.
pub fn flag_at(flags: &[bool], token: usize) -> bool
    ensures { result ≡ get_or flags.now token false }
{
    match flags.get(token) {
        Some(flag) => *flag,
        None => false,
    }
}

/// Returns the flag of the token before a token, or `false` if it has none.
pub fn flag_before(flags: &[bool], token: usize) -> bool
    ensures { result ≡ flag_before flags.now token }
{
    if token == 0 {
        return false;
    }
    flag_at(flags, token - 1)
}

/// Sets the flag of a token, if it has one.
fn put(flags: &mut Vec<bool>, token: usize, value: bool)
    ensures len { length flags.new.items ≡ length flags.old.items }
    ensures flags { (n : ℕ) → n < length flags.old.items → get_or flags.new.items n false
        ≡ (if token == n then value else get_or flags.old.items n false) }
{
    if token >= flags.len() {
        return;
    }
    flags[token] = value;
}

/// Sets the flags of these tokens.
pub fn put_all(flags: &mut Vec<bool>, tokens: &[u32], value: bool)
    ensures len { length flags.new.items ≡ length flags.old.items }
    ensures flags { (n : ℕ) → n < length flags.old.items → get_or flags.new.items n false
        ≡ (if list_any (λ t. t == n) tokens.now then value else get_or flags.old.items n false) }
{
    for token in tokens {
        put(flags, *token as usize, value);
    }
}

/// Sets the flags of those of these tokens whose token before is flagged in `own`.
pub fn put_pairs(flags: &mut Vec<bool>, own: &[bool], tokens: &[u32])
    ensures len { length flags.new.items ≡ length flags.old.items }
    ensures flags { (n : ℕ) → n < length flags.old.items → get_or flags.new.items n false
        ≡ (if list_any (λ t. t == n) tokens.now && flag_before own.now n then true else get_or flags.old.items n false) }
{
    for token in tokens {
        let number = *token as usize;
        put_pair(flags, own, number);
    }
}

/// Sets the flag of a token if the token before is flagged in `own`.
fn put_pair(flags: &mut Vec<bool>, own: &[bool], token: usize)
    ensures len { length flags.new.items ≡ length flags.old.items }
    ensures flags { (n : ℕ) → n < length flags.old.items → get_or flags.new.items n false
        ≡ (if token == n && flag_before own.now n then true else get_or flags.old.items n false) }
{
    if !flag_before(own, token) {
        return;
    }
    put(flags, token, true);
}

/// Sets the flags of the tokens from one number up to another, both included.
pub fn put_range(flags: &mut Vec<bool>, first: usize, last: usize)
    requires { last < 4294967296 }
    ensures len { length flags.new.items ≡ length flags.old.items }
    ensures flags { (n : ℕ) → n < length flags.old.items → get_or flags.new.items n false
        ≡ (if nat_le first n && nat_le n last then true else get_or flags.old.items n false) }
{
    for token in first..last + 1 {
        put(flags, token, true);
    }
}

/// Returns the number at a place, or 0 if the place is not in the list.
pub fn number_at(numbers: &[u32], at: usize) -> u32
    ensures { result ≡ get_or numbers.now at 0 }
{
    match numbers.get(at) {
        Some(number) => *number,
        None => 0,
    }
}
