// The groups of lines that are open.
ghost use Rattle.std.specs.Prelude.{◌≡◌, reverse, OnOk, OnErr};
ghost use Rattle.cpp_lines.specs.Frames.{all_shown, is_shown, frames_after, arm_after};

use crate::directive::Directive;
use c_terms::NoMemory;

/// The arm that a group is in.
#[derive(Clone, Copy, Debug, PartialEq, Eq)]
pub enum Arm {
    /// The arm before the one that is shown.
    Before,
    /// The arm that is shown.
    Shown,
    /// An arm after the one that is shown.
    Past,
}

/// A group that is open.
#[derive(Clone, Copy, Debug, PartialEq, Eq)]
pub struct Frame {
    pub arm: Arm,
    /// Whether all groups around it are in their shown arms.
    pub outer: bool,
}

/// Whether all open groups, the innermost last, are in their shown arms.
pub fn all_shown(groups: &Vec<Frame>) -> bool
    ensures { result ≡ all_shown (reverse groups.now.items) }
{
    match groups.last() {
        Some(frame) => frame.outer && is_shown(frame.arm),
        None => true,
    }
}

fn is_shown(arm: Arm) -> bool
    ensures { result ≡ is_shown arm }
{
    matches!(arm, Arm::Shown)
}

/// Updates the open groups by a line.
pub fn read_line(groups: &mut Vec<Frame>, line: Directive) -> Result<(), NoMemory>
    ensures { OnOk result (reverse groups.new.items ≡ frames_after line
        (reverse groups.old.items)) }
{
    let outer = all_shown(groups);
    match line {
        Directive::Open => groups.push(Frame {
            arm: Arm::Shown,
            outer,
        })?,
        Directive::OpenZero => groups.push(Frame {
            arm: Arm::Before,
            outer,
        })?,
        Directive::Next => {
            if let Some(frame) = groups.pop() {
                groups.push(Frame {
                    arm: arm_after(frame.arm),
                    outer: frame.outer,
                })?;
            }
        }
        Directive::Close => {
            let _closed = groups.pop();
        }
        Directive::Other => {}
    }
    Ok(())
}

fn arm_after(arm: Arm) -> Arm
    ensures { result ≡ arm_after arm }
{
    match arm {
        Arm::Before => Arm::Shown,
        Arm::Shown => Arm::Past,
        Arm::Past => Arm::Past,
    }
}
