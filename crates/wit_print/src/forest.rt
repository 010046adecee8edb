// Trees of witnesses.
ghost use Rattle.std.specs.Prelude.{◌≡◌, ◌++◌, OnOk};
ghost use Rattle.wit_print.specs.Report.{touch_line, bind_line, tree_lines};

use crate::report::{put_path, put_value};
use crate::text_buffer::TextBuffer;
use c_terms::{NoMemory, TreePath};
use smpl_patch::Witness;
use smpl_terms::{Value, Var};

/// Writes a tree of witnesses. Its first line begins with the bytes of `blanks`, which are unchanged afterwards. Recurses
/// once per level.
#[tactic(auto, using(crate::proofs::Lines::touch_lines, crate::proofs::Lines::bind_lines))]
pub fn put_tree(
    report: &mut TextBuffer,
    tree: &Witness,
    blanks: &mut Vec<u8>,
) -> Result<(), NoMemory>
    ensures lines { OnOk result (report.new ≡ report.old ++ tree_lines tree.now blanks.old.items) }
    ensures blanks { OnOk result (blanks.new.items ≡ blanks.old.items) }
{
    report.put(blanks)?;
    match tree {
        Witness::Touch(node, atom, path) => put_touch(report, *node, *atom, path),
        Witness::Bind(node, x, value, under) => {
            put_bind(report, *node, x, value)?;
            blanks.push(b' ')?;
            for below in under.as_slice() {
                put_tree(report, below, blanks)?;
            }
            blanks.pop();
            Ok(())
        }
    }
}

fn put_touch(report: &mut TextBuffer, node: u32, atom: u32, path: &TreePath) -> Result<(), NoMemory>
    ensures { OnOk result (report.new ≡ report.old ++ touch_line node atom path.now) }
{
    report.put_numbered(b"touch ", u64::from(node))?;
    report.put_numbered(b" ", u64::from(atom))?;
    report.put(b" ")?;
    put_path(report, path)?;
    report.put(b"\n")
}

fn put_bind(report: &mut TextBuffer, node: u32, x: &Var, value: &Value) -> Result<(), NoMemory>
    ensures { OnOk result (report.new ≡ report.old ++ bind_line node x.now value.now) }
{
    report.put_numbered(b"bind ", u64::from(node))?;
    report.put(b" ")?;
    report.put(x.name.as_bytes())?;
    report.put(b" = ")?;
    put_value(report, value)?;
    report.put(b"\n")
}
