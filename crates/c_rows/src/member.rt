// Whether a type can be a member of an argument list, judged by its first three tokens.
ghost use Rattle.std.specs.Prelude.{◌≡◌};
ghost use Rattle.c_rows.specs.Seen.{front};
ghost use Rattle.c_rows.specs.Range as range;

use crate::{
    Class, Family, Seen, Word, begins_declarator, begins_specs, ends_member, first, fits, front,
    same_class,
};

/// Whether a declarator without a name may begin with these two classes: with `*` or `[`, with the `(` of parameters,
/// or with the `(` of a declarator that doesn't begin with a name.
fn begins_nameless(class: Class, next: Class) -> bool
    ensures { result ≡ range.begins_nameless class next }
{
    same_class(Class::Star, class)
        || same_class(Class::LeftBracket, class)
        || fits(Word::ListOpen, class) && first(Family::Params, next)
        || fits(Word::NestOpen, class) && (begins_declarator(next) && !fits(Word::Name, next))
}

/// Whether these two classes may follow a name that is a type: as a modifier, the end of a member, or the start of a
/// declarator without a name.
fn follows_type(class: Class, next: Class) -> bool
    ensures { result ≡ range.follows_type class next }
{
    fits(Word::Modifier, class) || ends_member(class) || begins_nameless(class, next)
}

/// The class of the second token, or [`Class::End`] if there is none.
fn second(rest: &[Seen]) -> Class
    ensures { result ≡ range.second rest.now }
{
    match rest {
        [] => Class::End,
        [_, rest @ ..] => front(rest),
    }
}

/// Whether a type that ends where a member of an argument list may end may begin with these three classes.
fn begins_member(class: Class, next: Class, third: Class) -> bool
    ensures { result ≡ range.begins_member class next third }
{
    begins_specs(class) && (!fits(Word::Name, class) || follows_type(next, third))
}

/// Whether a type that is a member of an argument list may begin here, judged by its first three tokens. Allocates no
/// memory.
pub fn may_be_type(rest: &[Seen]) -> bool
    ensures value { result ≡ range.may_be_type rest.now }
{
    match rest {
        [] => false,
        [seen, rest @ ..] => begins_member(seen.class(), front(rest), second(rest)),
    }
}
