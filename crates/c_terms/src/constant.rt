// Names and rows that are constants.
ghost use Rattle.std.specs.Prelude.{◌≡◌, true, false};
ghost use Rattle.std.specs.List.{list_any, list_all};
ghost use Rattle.c_terms.specs.Constants as spec;

use crate::Label;

fn is_capital(byte: u8) -> bool
    ensures { result ≡ spec.is_capital byte }
{
    byte.is_ascii_uppercase()
}

fn is_constant_byte(byte: u8) -> bool
    ensures { result ≡ spec.is_constant_byte byte }
{
    is_capital(byte) || byte.is_ascii_digit() || byte == b'_'
}

fn has_capital(text: &[u8]) -> bool
    ensures { result ≡ list_any spec.is_capital text.now }
{
    text.iter().any(|byte| is_capital(*byte))
}

fn is_all_constant(text: &[u8]) -> bool
    ensures { result ≡ list_all spec.is_constant_byte text.now }
{
    text.iter().all(|byte| is_constant_byte(*byte))
}

/// Whether a name is one of a constant by its form: capital letters, digits and `_`, with at least one capital letter.
/// Linear. The rule is Coccinelle's, for `constant` metavariables.
pub fn is_constant_name(text: &[u8]) -> bool
    ensures { result ≡ spec.is_constant_name text.now }
{
    is_all_constant(text) && has_capital(text)
}

/// Whether the label is that of adjacent string literals, which are a constant together.
pub fn is_strings(label: Label) -> bool
    ensures { result ≡ spec.is_strings label }
{
    matches!(label, Label::Strings)
}
