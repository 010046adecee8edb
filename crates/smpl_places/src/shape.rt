// What is known of a piece of code besides its tokens.
ghost use Rattle.std.specs.Prelude.{◌≡◌, ◌+◌, IfOk};
ghost use Rattle.smpl_places.specs.Pieces as spec;

use crate::sign::Sign;
use c_terms::NoMemory;

/// What is known of a piece besides its tokens.
#[derive(Clone, Copy, Debug, PartialEq, Eq)]
pub struct Shape {
    /// How many brackets are open.
    pub depth: u32,
    /// Whether a `{` here begins a block: the piece has no token, or the last one is `else`, or `)` and not in a value.
    pub leads: bool,
    /// Whether a value has begun: outside of all brackets there is an `=` or `return`, and no `else` after it.
    pub value: bool,
    /// Whether the last `{` outside of all brackets begins a block.
    pub block: bool,
    /// Whether the piece is complete, unless `else` follows.
    pub ended: bool,
}

/// Returns what is known of a piece without tokens.
pub fn empty_shape() -> Shape
    ensures { result ≡ spec.empty_shape }
{
    Shape {
        depth: 0,
        leads: true,
        value: false,
        block: false,
        ended: false,
    }
}

pub fn is_outside(shape: Shape) -> bool
    ensures { result ≡ spec.is_outside shape }
{
    shape.depth == 0
}

/// Returns the depth after an opening bracket, if it can be counted.
fn deeper(depth: u32) -> Result<u32, NoMemory>
    ensures { IfOk result (λ next. next ≡ depth + 1) }
{
    depth.checked_add(1).ok_or(NoMemory)
}

/// Whether the last `{` outside of all brackets begins a block, with one more `{`.
fn block_at(shape: Shape) -> bool
    ensures { result ≡ spec.block_at shape }
{
    if shape.depth == 0 {
        shape.leads
    } else {
        shape.block
    }
}

/// Returns what is known with one more token. Fails if more brackets are open than can be counted.
pub fn shape_with(shape: Shape, sign: Sign) -> Result<Shape, NoMemory>
    ensures { IfOk result (λ next. next ≡ spec.shape_with shape sign) }
{
    match sign {
        Sign::Open => Ok(Shape {
            depth: deeper(shape.depth)?,
            leads: false,
            value: shape.value,
            block: shape.block,
            ended: false,
        }),
        Sign::OpenBrace => Ok(Shape {
            depth: deeper(shape.depth)?,
            leads: false,
            value: shape.value,
            block: block_at(shape),
            ended: false,
        }),
        Sign::Close => Ok(Shape {
            depth: shape.depth.saturating_sub(1),
            leads: false,
            value: shape.value,
            block: shape.block,
            ended: false,
        }),
        Sign::CloseParen => Ok(Shape {
            depth: shape.depth.saturating_sub(1),
            leads: !shape.value,
            value: shape.value,
            block: shape.block,
            ended: false,
        }),
        Sign::CloseBrace => Ok(Shape {
            depth: shape.depth.saturating_sub(1),
            leads: false,
            value: shape.value,
            block: shape.block,
            ended: shape.depth == 1 && shape.block,
        }),
        Sign::Semicolon => Ok(Shape {
            depth: shape.depth,
            leads: false,
            value: shape.value,
            block: shape.block,
            ended: shape.depth == 0,
        }),
        Sign::Else => Ok(Shape {
            depth: shape.depth,
            leads: true,
            value: false,
            block: shape.block,
            ended: false,
        }),
        Sign::Value => Ok(Shape {
            depth: shape.depth,
            leads: false,
            value: shape.depth == 0 || shape.value,
            block: shape.block,
            ended: false,
        }),
        Sign::Mark => Ok(Shape {
            depth: shape.depth,
            leads: false,
            value: shape.value,
            block: shape.block,
            ended: false,
        }),
        Sign::Plain => Ok(Shape {
            depth: shape.depth,
            leads: false,
            value: shape.value,
            block: shape.block,
            ended: false,
        }),
    }
}
