//! What the definitions say of each other. The function does nothing: its contract is the law.
ghost use Rattle.std.specs.Prelude.{◌≡◌, List, ℕ};
ghost use Rattle.std.specs.List.{flat_map};
ghost use Rattle.rows.specs.Line.{read, shown};

/// A text that stands on a line is read as it was.
pub fn a_text_on_a_line_is_read_back()
    ensures { (cs : List ℕ) → read (flat_map shown cs) ≡ cs }
{}
