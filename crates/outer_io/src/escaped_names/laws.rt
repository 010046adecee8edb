// What lines show of names distinguishes them, and ends no line. The functions do nothing.
ghost use Rattle.std.specs.Prelude.{◌≡◌, ℕ, false, List};
ghost use Rattle.std.specs.List.{list_any};
ghost use Rattle.outer_io.specs.EscapedNames.Escapes.{escaped_name, is_control};
ghost use Rattle.outer_io.specs.EscapedNames.Reads.{read_name};

/// No byte that lines show of a name is below 32 or 127, so it ends no line. Does nothing.
pub fn names_end_no_line()
    ensures { (name : List ℕ) → list_any is_control (escaped_name name) ≡ false }
{}

/// What lines show of a name is read back as the name, so no two names are shown alike. Does nothing.
pub fn names_read_back()
    ensures { (name : List ℕ) → read_name (escaped_name name) ≡ name }
{}
