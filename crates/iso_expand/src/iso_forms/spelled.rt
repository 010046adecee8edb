// Trees as bytes.
ghost use Rattle.std.specs.Prelude.{◌≡◌, ◌++◌, ◌∷◌, [], IfOk};
ghost use Rattle.iso_expand.specs.IsoForms.Spelled as spec;

use c_terms::{NoMemory, Token, Tree};
use std::alloc::Global;

fn put_text(text: &[u8], out: &mut Vec<u8>) -> Result<(), NoMemory>
    ensures { IfOk result (λ _. out.new.items ≡ out.old.items ++ spec.spell_text text.now) }
{
    for byte in text {
        out.push(1)?;
        out.push(*byte)?;
    }
    out.push(0)?;
    Ok(())
}

fn put_token(token: &Token, out: &mut Vec<u8>) -> Result<(), NoMemory>
    ensures { IfOk result (λ _. out.new.items ≡ out.old.items ++ spec.spell_token token.now) }
{
    out.push(0)?;
    out.push(token.kind.number())?;
    put_text(token.text.as_bytes(), out)
}

fn put_tree(tree: &Tree, out: &mut Vec<u8>) -> Result<(), NoMemory>
    ensures { IfOk result (λ _. out.new.items ≡ out.old.items ++ spec.spelled tree.now) }
{
    match tree {
        Tree::Leaf(token) => put_token(token, out),
        Tree::Branch(label, children) => {
            out.push(1)?;
            out.push(label.number())?;
            for child in children.as_slice() {
                out.push(1)?;
                put_tree(child, out)?;
            }
            out.push(0)?;
            Ok(())
        }
    }
}

/// Returns the tree's bytes, which are those of the trees that are the same, and of no others. Takes linear time.
/// Recurses once for each level.
pub fn spelled(alloc: Global, tree: &Tree) -> Result<Vec<u8>, NoMemory>
    ensures { IfOk result (λ bytes. bytes.items ≡ spec.spelled tree.now) }
{
    let mut out = Vec::new(alloc);
    put_tree(tree, &mut out)?;
    Ok(out)
}
