//! The layouts of a JSON text.

/// How a JSON text is laid out.
#[derive(Clone, Copy, Debug, PartialEq, Eq)]
pub enum Format {
    /// No blanks at all.
    Condensed,
    /// One line, with a blank after each comma and each colon.
    SingleLine,
    /// Each element on a line of its own, two blanks further in for each level. An empty collection stays on one line.
    Pretty,
}
