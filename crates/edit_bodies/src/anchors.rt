// Tokens at which edits insert.
ghost use Rattle.std.specs.Prelude.{◌≡◌, ◌≤◌, filter, length, nat_lt, true, false};
ghost use Rattle.std.specs.List.{list_any, prefix_len};
ghost use Rattle.std.specs.List.Sorted.{IsNonDecreasingBy, IsPartitionPoint};
ghost use Rattle.edit_marks.specs.EditConflict.Marks.{is_at, marks_from};
ghost use Rattle.edit_marks.specs.Tidy.Bodies.{acts_of};
ghost use Rattle.edit_bodies.specs.Scenes.{is_insert};

use edit_marks::{Act, EditList, Mark};

/// Whether an edit inserts at a token, on any side of it. Takes log n steps for n acts of edits, and one for each act at the
/// token.
pub fn inserts_at(edits: &EditList, token: u32) -> bool
    ensures { result ≡ (acts_of edits.now).comes token }
{
    some_insert(marks_at(edits, token))
}

fn some_insert(marks: &[Mark]) -> bool
    ensures { result ≡ list_any (λ m. is_insert m.act) marks.now }
{
    marks.iter().any(|mark| is_insert(mark.act))
}

/// Returns what edits do at a token.
fn marks_at(edits: &EditList, token: u32) -> &[Mark]
    ensures { result.now ≡ filter (is_at token) (marks_from 0 edits.now) }
{
    let marks = edits.marks();
    let rest = &marks[first_from(marks, token)..];
    &rest[..run_from(rest, token)]
}

/// Returns how many acts are at tokens before this one. They are sorted by token.
fn first_from(marks: &[Mark], token: u32) -> usize
    requires { IsNonDecreasingBy (λ m. m.token) marks.now }
    ensures within { result ≤ length marks.now }
    ensures apart { IsPartitionPoint (λ m. nat_lt m.token token ≡ true) (λ m. nat_lt m.token token ≡ false) marks.now result }
{
    marks.partition_point(|mark| mark.token < token)
}

/// Returns how many acts at the front are at this token.
fn run_from(marks: &[Mark], token: u32) -> usize
    ensures value { result ≡ prefix_len (is_at token) marks.now }
    ensures within { result ≤ length marks.now }
{
    marks.iter().take_while(|mark| mark.token == token).count()
}

fn is_insert(act: Act) -> bool
    ensures { result ≡ is_insert act }
{
    matches!(act, Act::Insert(..))
}
