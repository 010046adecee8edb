// The smallest parts of a report.
ghost use Rattle.std.specs.Prelude.{◌≡◌, ◌++◌, ◌∷◌, OnOk};
ghost use Rattle.wit_print.specs.Report.{value_text, path_text};

use crate::text_buffer::TextBuffer;
use c_show::show;
use c_terms::{NoMemory, TreePath};
use smpl_terms::Value;

/// Writes a value: a term written out, or `#` and the id of a token.
pub fn put_value(report: &mut TextBuffer, value: &Value) -> Result<(), NoMemory>
    ensures { OnOk result (report.new ≡ report.old ++ value_text value.now) }
{
    match value {
        Value::Term(tree) => {
            let text = show(report.alloc(), tree.get())?;
            report.put(text.as_bytes())
        }
        Value::Place(id) => {
            report.put(b"#")?;
            report.put_number(*id)
        }
    }
}

/// Writes a path: child numbers separated by dots, or `-` if there are none.
pub fn put_path(report: &mut TextBuffer, path: &TreePath) -> Result<(), NoMemory>
    ensures { OnOk result (report.new ≡ report.old ++ path_text path.now) }
{
    let Some((first, rest)) = path.steps().split_first() else {
        return report.put(b"-");
    };
    report.put_number(u64::from(*first))?;
    for step in rest {
        report.put(b".")?;
        report.put_number(u64::from(*step))?;
    }
    Ok(())
}
