//! What a document can say stands in place of a value.
ghost use Rattle.std.specs.Prelude.{◌≡◌};

use snap_content::Content;

/// What a document can say stands in place of a value: a `Redaction` that holds no function.
#[derive(Debug, Drop)]
pub enum Replacement {
    /// The same tree, whatever the value is.
    Static(Content),
    /// The value with its list in order, as by `Redaction::Sorted`.
    Sorted,
}

impl Replacement {
    /// The tree that stands in place of each value.
    pub fn from_content(value: Content) -> Replacement
        ensures { result ≡ Replacement.Static value }
    {
        Replacement::Static(value)
    }
}
