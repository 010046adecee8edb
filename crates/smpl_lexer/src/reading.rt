// Reads a patch line by line.
ghost use Rattle.std.specs.Prelude.{◌≡◌, ◌+◌, ◌≤◌, length, IfOk};
ghost use Rattle.smpl_lexer.specs.Cutting.{IsReadTo, AreReadTo};

use crate::cut::cut;
use crate::gather::{Gathered, gather_line};
use crate::line::{begins_rule, content, has_signs, is_plus, line_length, skipped};
use crate::section::{Section, role_in, section_after};
use crate::stop::with_role;
use c_terms::NoMemory;
use smpl_patch::PatchFault;
use sqlite_items::Items;
use std::alloc::Global;

/// What is read of a patch so far: the section of its next line, its first fault, and its rules.
#[derive(Drop)]
pub struct Reading {
    pub section: Section,
    pub first: Option<PatchFault>,
    pub gathered: Gathered,
}

fn read_line(
    alloc: Global,
    reading: Reading,
    start: usize,
    bytes: &[u8],
) -> Result<Reading, NoMemory>
    requires { start + length bytes.now ≤ 1048576 }
    ensures { IfOk result (λ after. IsReadTo reading start bytes.now after) }
{
    let Reading {
        section,
        first,
        gathered,
    } = reading;
    let role = role_in(section, begins_rule(bytes));
    let skip = skipped(role, bytes);
    let signs = has_signs(role, bytes);
    let plus = is_plus(role, bytes);
    let cut = cut(alloc, signs, plus, start + skip, &bytes[skip..], first)?;
    let end = start + content(bytes).len();
    let first = with_role(
        cut.first,
        role,
        start as u32,
        cut.tokens.as_slice(),
        end as u32,
    );
    let gathered = gather_line(alloc, role, start as u32, bytes, cut.tokens, gathered)?;
    Ok(Reading {
        section: section_after(role),
        first,
        gathered,
    })
}

/// Reads all lines.
pub fn read_lines(alloc: Global, bytes: &[u8]) -> Result<Reading, NoMemory>
    requires { length bytes.now ≤ 1048576 }
    ensures { IfOk result (λ after. AreReadTo bytes.now after) }
{
    let mut reading = Reading {
        section: Section::Before,
        first: None,
        gathered: Gathered {
            virtuals: Items::new(alloc),
            rules: Items::new(alloc),
            last: None,
        },
    };
    let mut start = 0;
    while start < bytes.len() {
        let end = start + line_length(&bytes[start..]);
        reading = read_line(alloc, reading, start, &bytes[start..end])?;
        start = end;
    }
    Ok(reading)
}
