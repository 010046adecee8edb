// Sets of environments that recipes make: which are reported to be the same, and what threads share.
use c_terms::{Text, Token, TokenKind, Tree};
use env_sets::{Bound, Entry, EnvSet, Values, complement, join, meet, same_set};
use smpl_terms::{Value, Var};
use std::alloc::Global;
use std::test::Fail;
use std::thread;
use std::thread::Threads;

fn var(alloc: Global, name: &str) -> Result<Var, Fail> {
    Ok(Var {
        rule: 0,
        name: Text::from_bytes(alloc, name.as_bytes())?,
    })
}

/// Returns the number as a term, whose token has this id.
fn term(alloc: Global, number: &str, id: u64) -> Result<Value, Fail> {
    let token = Token {
        kind: TokenKind::Number,
        text: Text::from_bytes(alloc, number.as_bytes())?,
        id,
    };
    Ok(Value::term(alloc, Tree::Leaf(token))?)
}

/// Returns one number, or two separated by a comma, as terms.
fn terms(alloc: Global, numbers: &str) -> Result<Values, Fail> {
    let mut values = Vec::new(alloc);
    match numbers.split_once(',') {
        Some((first, second)) => {
            values.push(term(alloc, first, 4)?)?;
            values.push(term(alloc, second, 5)?)?;
        }
        None => values.push(term(alloc, numbers, 6)?)?,
    }
    Ok(Values::of(alloc, values)?)
}

// The calls without their clauses, which keeps goals small.

fn is(alloc: Global, name: &str, number: &str) -> Result<EnvSet, Fail> {
    let bound = Bound::Is(term(alloc, number, 1)?);
    Ok(EnvSet::one(alloc, &var(alloc, name)?, bound)?)
}

fn is_none_of(alloc: Global, name: &str, numbers: &str) -> Result<EnvSet, Fail> {
    let bound = Bound::Not(terms(alloc, numbers)?);
    Ok(EnvSet::one(alloc, &var(alloc, name)?, bound)?)
}

pub fn both(alloc: Global, a: &EnvSet, b: &EnvSet) -> Result<EnvSet, Fail> {
    Ok(meet(alloc, a, b)?)
}

fn either(alloc: Global, a: &EnvSet, b: &EnvSet) -> Result<EnvSet, Fail> {
    Ok(join(alloc, a, b)?)
}

fn other(alloc: Global, a: &EnvSet) -> Result<EnvSet, Fail> {
    Ok(complement(alloc, a)?)
}

fn copied(alloc: Global, a: &EnvSet) -> Result<EnvSet, Fail> {
    Ok(a.copy(alloc)?)
}

fn everything(alloc: Global) -> Result<EnvSet, Fail> {
    Ok(EnvSet::all(alloc)?)
}

pub fn size(a: &EnvSet) -> usize {
    let (first, blocks) = a.blocks();
    let mut count = first.len();
    for block in blocks {
        count = count.saturating_add(block.as_slice().len());
    }
    count
}

/// Removes and returns the last set.
fn last(sets: &mut Vec<EnvSet>) -> Result<EnvSet, Fail> {
    match sets.pop() {
        Some(set) => Ok(set),
        None => Err("no set is left")?,
    }
}

/// Returns the set that a recipe in postfix order makes. Its words are `none`, `all`, `x=1`, `x!1` and `x!1,2`; and `~`,
/// `&` and `|`, which apply to the last sets.
pub fn made(alloc: Global, recipe: &str) -> Result<EnvSet, Fail> {
    let mut sets = Vec::new(alloc);
    for word in recipe.split_whitespace() {
        let set = next_set(alloc, &mut sets, word)?;
        sets.push(set)?;
    }
    last(&mut sets)
}

fn next_set(alloc: Global, sets: &mut Vec<EnvSet>, word: &str) -> Result<EnvSet, Fail> {
    match word {
        "none" => Ok(EnvSet::none(alloc)),
        "all" => everything(alloc),
        "~" => other(alloc, &last(sets)?),
        "&" => both(alloc, &last(sets)?, &last(sets)?),
        "|" => either(alloc, &last(sets)?, &last(sets)?),
        _ => set_of_word(alloc, word),
    }
}

fn set_of_word(alloc: Global, word: &str) -> Result<EnvSet, Fail> {
    if let Some((name, number)) = word.split_once('=') {
        return is(alloc, name, number);
    }
    match word.split_once('!') {
        Some((name, numbers)) => is_none_of(alloc, name, numbers),
        None => Err("no word of a recipe")?,
    }
}

fn listed(alloc: Global, a: &EnvSet) -> Result<Vec<Entry>, Fail> {
    Ok(a.entries(alloc)?)
}

/// Appends the bound as a word of a recipe. Fails unless it is one number.
fn put_word(out: &mut Vec<u8>, x: &Var, bound: &Bound) -> Result<(), Fail> {
    let Bound::Is(Value::Term(tree)) = bound else {
        return Err("the bound is no term")?;
    };
    let Tree::Leaf(token) = tree.get() else {
        return Err("the term is no token")?;
    };
    out.extend_from_slice(x.name.as_bytes())?;
    out.push(b'=')?;
    out.extend_from_slice(token.text.as_bytes())?;
    out.push(b' ')?;
    Ok(())
}

/// Returns the bounds of the entries, one after another, as words of a recipe.
fn words_of(alloc: Global, entries: &[Entry]) -> Result<Vec<u8>, Fail> {
    let mut out = Vec::new(alloc);
    for e in entries {
        for p in e.pairs() {
            put_word(&mut out, &p.0, &p.1)?;
        }
    }
    Ok(out)
}

#[test]
fn a_set_hands_out_the_entries_that_were_put_in(rt: HostRuntime) -> Result<(), Fail> {
    let alloc = rt.alloc();
    let set = made(
        alloc,
        "x=24 x=11 | x=28 | x=19 | x=13 | x=22 | x=15 | x=10 | x=26 | x=17 | x=21 | x=12 | x=29 | x=14 | x=25 | x=16 | \
         x=27 | x=18 | x=23 | x=20 |",
    )?;
    assert!(rt; !set.blocks().1.is_empty());
    let words = String::from_utf8(words_of(alloc, &listed(alloc, &set)?)?)?;
    assert!(rt;
        words.as_str()
            == "x=10 x=11 x=12 x=13 x=14 x=15 x=16 x=17 x=18 x=19 \
                x=20 x=21 x=22 x=23 x=24 x=25 x=26 x=27 x=28 x=29 "
    );
    Ok(())
}

/// Whether two recipes make sets that are reported to be the same.
pub fn are_same(alloc: Global, first: &str, second: &str) -> Result<bool, Fail> {
    Ok(same_set(&made(alloc, first)?, &made(alloc, second)?))
}

#[test]
fn sets_are_told_apart(rt: HostRuntime) -> Result<(), Fail> {
    for (first, second, same) in [
        ("x=1 y!1,2 &", "y!1,2 x=1 &", true),
        ("y=1 x!5 & y=1 x!26 & |", "y=1 x!26 & y=1 x!5 & |", true),
        ("x=1 y!1,2 &", "x=2 y!1,2 &", false),
        ("x=1 y!1,2 &", "x=1 y!1,3 &", false),
        ("x=1 y!1,2 &", "x=1", false),
        ("x=1", "none", false),
    ] {
        assert!(rt; are_same(rt.alloc(), first, second)? == same, "{first}");
    }
    Ok(())
}

/// Returns whether it is known that the set is empty, and whether it is known that it has every environment.
fn extremes(alloc: Global, recipe: &str) -> Result<(bool, bool), Fail> {
    let set = copied(alloc, &made(alloc, recipe)?)?;
    Ok((set.is_none(), set.is_all()))
}

#[test]
fn nothing_and_everything_are_told(rt: HostRuntime) -> Result<(), Fail> {
    for (recipe, none, all) in [
        ("none", true, false),
        ("all", false, true),
        ("x=1", false, false),
    ] {
        assert!(rt; extremes(rt.alloc(), recipe)? == (none, all), "{recipe}");
    }
    Ok(())
}

fn all_of(alloc: Global, a: &Values, b: &Values) -> Result<Values, Fail> {
    Ok(a.copy(alloc)?.joined(alloc, b)?)
}

fn excludes(alloc: Global, values: Values) -> Result<Bound, Fail> {
    Ok(Bound::Not(values).copy(alloc)?)
}

#[test]
fn lists_of_values_know_their_order(rt: HostRuntime) -> Result<(), Fail> {
    let alloc = rt.alloc();
    let two = terms(alloc, "1,2")?;
    assert!(rt; two.rises() && two.copy(alloc)?.rises() && !terms(alloc, "2,1")?.rises());
    let all = all_of(alloc, &two, &terms(alloc, "3,2")?)?;
    assert!(rt; all.rises() && all.into_vec(alloc)?.len() == 3);
    assert!(rt; excludes(alloc, two)?.is_not());
    Ok(())
}

/// Drops the set, and returns its size.
fn last_size(a: EnvSet) -> usize {
    size(&a)
}

/// Returns the sizes of two sets, each of which is dropped in its own thread.
fn sizes_apart(rt: &impl Threads, a: EnvSet, b: EnvSet) -> (usize, usize) {
    thread::join(rt, move || last_size(a), move || last_size(b))
}

#[test]
fn sharing_crosses_threads(rt: HostRuntime) -> Result<(), Fail> {
    let alloc = rt.alloc();
    let one = made(alloc, "x!1,2")?;
    let (first, second) = sizes_apart(&rt, copied(alloc, &one)?, copied(alloc, &one)?);
    assert!(rt; first == 1 && second == 1 && last_size(one) == 1);
    Ok(())
}
