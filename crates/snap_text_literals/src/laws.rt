//! Laws of the forms and of the literals.
ghost use Rattle.std.specs.Prelude.{◌≡◌, ◌++◌, [], ℕ, List};
ghost use Rattle.snap_text_literals.specs.Inline.{inline_normal, inline_width, written};
ghost use Rattle.snap_text_literals.specs.Literal.{literal_reads};
ghost use Rattle.snap_text_literals.specs.Normal.{trimmed, normal};
ghost use Rattle.snap_text_literals.specs.OfLiteral.{ComesBack};
ghost use Rattle.snap_text_literals.specs.Spelled.{spelled, meant, IsIndentation};

/// A normal form is its own normal form.
pub const fn normal_once()
    ensures { (text : List ℕ) → normal (normal text) ≡ normal text }
{}

/// The normal form of an inline text is what is written of its trimmed text line by line, each from one byte on.
pub const fn normal_by_lines()
    ensures { (text : List ℕ) → written (inline_width text) (trimmed text) ≡ inline_normal text }
{}

/// A source has at most one text.
pub const fn one_text()
    ensures { (source text other : List ℕ) → literal_reads source text → literal_reads source other
        → text ≡ other }
{}

/// No literal is a proper prefix of another, so a text begins with one literal at most.
pub const fn no_literal_goes_on()
    ensures { (literal more text other : List ℕ) → literal_reads literal text
        → literal_reads (literal ++ more) other → more ≡ [] }
{}

/// What is written reads, by the grammar, as the text that was meant.
pub const fn reads_as_meant()
    ensures { (indentation text : List ℕ) → IsIndentation indentation
        → literal_reads (spelled indentation text) (meant indentation text) }
{}

/// For an inline text whose normal form is its own normal form: what is written reads as some text, and a
/// snapshot made of that text has the first one's normal form.
pub const fn inline_law()
    ensures { (indentation text : List ℕ)
        → ComesBack (spelled indentation (inline_normal text)) indentation text }
{}
