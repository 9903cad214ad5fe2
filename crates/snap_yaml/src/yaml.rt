//! Values of documents.
ghost use Rattle.std.specs.Prelude.{◌≡◌};

use crate::lists::{Array, Hash};
use snap_content::Text;

/// A value of a document.
#[derive(Debug, Drop)]
pub enum Yaml {
    /// A number that is no whole number of 64 bits, as its text. Nothing computes it.
    Real(Text),
    Integer(i64),
    String(Text),
    Boolean(bool),
    Array(Array),
    Hash(Hash),
    Null,
    /// What a tag asks for and the text is not; and a document without a value.
    BadValue,
}
