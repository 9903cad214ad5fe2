//! Laws of printed texts.
ghost use Rattle.std.specs.Prelude.{◌≡◌, [], ◌∷◌, true, ℕ, List};
ghost use Rattle.snap_content.specs.Plain.{Plain};
ghost use Rattle.snap_print.specs.Readable.{IsWithin, is_word};
ghost use Rattle.snap_print.specs.Spell.{spelling};
ghost use Rattle.snap_print.specs.Typed.{typed, value};
ghost use Rattle.snap_print.specs.Blocks.{Blocks};
ghost use Rattle.snap_print.specs.Lines.{text_of};
ghost use Rattle.snap_parse_events.specs.Nodes.{Node, stream_events};
ghost use Rattle.snap_parse.specs.Documents.{document_value};
ghost use Rattle.snap_emit.specs.PlainRead.{has_number_text};
ghost use Rattle.snap_emit.specs.Readings.{is_kept_among};
ghost use Rattle.snap_emit.specs.Spelled.{IsHeaderOf, SpellsHeader};
ghost use Rattle.snap_emit.specs.Examples.{AreMarkedNumbers, AreWords, AreWholeNumbers, AreReal, AreTexts, AreSpelled};

/// Trees whose numbers have 128 bits are one tree where they have a text in common, whether it is printed of them, with literal
/// blocks or without, or spells them.
pub const fn one_text_is_one_tree()
    ensures printed { (v w : Blocks) (a b : Plain) → IsWithin a → IsWithin b
        → text_of v a ≡ text_of w b → a ≡ b }
    ensures spelled { (text : List ℕ) (a b : Plain) → IsWithin a → IsWithin b
        → IsHeaderOf text a → IsHeaderOf text b → a ≡ b }
{}

/// The numbers of a tree that a free layout spells have 128 bits.
pub const fn spelled_numbers_are_within()
    ensures { (text : List ℕ) (t : Plain) → SpellsHeader text t → IsWithin t }
{}

/// Where a number is kept as its text in the value of a document, it stands among the document's events.
pub const fn kept_numbers_stand_among_events()
    ensures { (node : Node) → has_number_text (document_value node) ≡ true
        → is_kept_among (stream_events (node ∷ [])) ≡ true }
{}

/// A scalar that is written without double quotes is what a reader takes its spelling for.
pub const fn words_are_typed()
    ensures { (t : Plain) → is_word t ≡ true → IsWithin t → typed (spelling t) ≡ value t }
{}

/// What a reader takes bare words for, and the trees that layouts spell, worked out by hand.
pub const fn worked_examples()
    ensures marked { AreMarkedNumbers }
    ensures words { AreWords }
    ensures whole { AreWholeNumbers }
    ensures real { AreReal }
    ensures texts { AreTexts }
    ensures spelled { AreSpelled }
{}
