//! Why a text is read as no tree.
use snap_parse::ScanError;

/// Why a text is read as no tree.
#[derive(Clone, Copy, Debug, PartialEq, Eq)]
pub enum Refusal {
    /// It is no YAML: where that was found, and what.
    NoYaml(ScanError),
    /// It has no document, or several.
    NotOneDocument,
    /// An alias stands in it, as `*a`, whose value would be left out.
    Alias,
    /// Something in it is no value: an empty document, or a scalar that isn't what its tag says.
    NoTree,
    /// A number stands in it that is no whole number of 128 bits.
    Number,
}
