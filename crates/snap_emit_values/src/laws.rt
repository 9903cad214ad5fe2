//! What the definitions say of each other, for whole trees. The functions do nothing: their contracts are the laws.
ghost use Rattle.std.specs.Prelude.{◌≡◌, ◌∷◌, ◌++◌, [], ℕ, true, false};
ghost use Rattle.std.specs.List.{flat_map};
ghost use Rattle.snap_content.specs.Lines.{ended};
ghost use Rattle.snap_content.specs.Plain.{Plain};
ghost use Rattle.snap_print.specs.Blocks.{Blocks};
ghost use Rattle.snap_print.specs.Lines.{document_of, lines_of, text_of};
ghost use Rattle.snap_emit_values.specs.Columns.{text_at, lines_at};
ghost use Rattle.snap_emit_values.specs.Document.{document, dumped, ends_in_block};
ghost use Rattle.snap_emit_values.specs.Shape.{Shape, lines, plain_shape};

/// The text of a shape at a column is its lines, the further ones after blanks, an empty one after none; at column 0 it is the lines,
/// each with its end. What an emitter adds is a document, but for its last line's end where that line is none of a block.
pub fn text_is_lines()
    ensures at_a_column { (k : ℕ) (w : Blocks) (t : Shape) → text_at k w t ≡ lines_at k (lines w t) }
    ensures whole { (w : Blocks) (t : Shape) → text_at 0 w t ++ 10 ∷ []
        ≡ flat_map ended (lines w t) }
    ensures dumped_open { (w : Blocks) (t : Shape) → ends_in_block w t ≡ false
        → dumped w t ++ 10 ∷ [] ≡ document w t }
    ensures dumped_whole { (w : Blocks) (t : Shape) → ends_in_block w t ≡ true
        → dumped w t ≡ document w t }
{}

/// A plain tree and its shape have the same lines, the same text and the same document, with literal blocks or without.
pub fn plain_trees_print_as_their_shapes()
    ensures same_lines { (w : Blocks) (t : Plain) → lines w (plain_shape t) ≡ lines_of w t }
    ensures same_text { (w : Blocks) (t : Plain) → text_at 0 w (plain_shape t) ++ 10 ∷ []
        ≡ text_of w t }
    ensures same_document { (w : Blocks) (t : Plain) → document w (plain_shape t) ≡ document_of w t }
{}
