//! Why a line has no record, in words.
ghost use Rattle.std.specs.Prelude.{◌≡◌};
ghost use Rattle.snap_explain.specs.Words.{start_text, kind_text, scan_fault, fault_of};

use snap_content::Text;
use snap_emit::Refusal;
use snap_scan_tokens::{Marker, ScanError, ScanInfo};
use std::fmt;

/// What a line begins with after its blanks, where no JSON text begins so.
#[derive(Clone, Copy, Debug, PartialEq, Eq)]
pub enum Start {
    /// Nothing comes after the blanks.
    Nothing,
    Tab,
    /// A byte order mark.
    Mark,
    Other,
}

impl Start {
    /// What the line begins with, in words.
    pub fn text(&self) -> &'static str
        ensures { result.now ≡ start_text self.now }
    {
        match self {
            Start::Nothing => "nothing but blanks",
            Start::Tab => "a tab",
            Start::Mark => "a byte order mark",
            Start::Other => "no JSON text begins so",
        }
    }
}

/// Why a number is no whole number of 128 bits.
#[derive(Clone, Copy, Debug, PartialEq, Eq)]
pub enum NumberKind {
    Fraction,
    Exponent,
    /// It has more than 128 bits.
    Wide,
}

impl NumberKind {
    /// What the number is, in words.
    pub fn text(&self) -> &'static str
        ensures { result.now ≡ kind_text self.now }
    {
        match self {
            NumberKind::Fraction => "a number with a fraction",
            NumberKind::Exponent => "a number with an exponent",
            NumberKind::Wide => "a number of more than 128 bits",
        }
    }
}

/// A number that is no whole number of 128 bits, and the selector of its place, or `the top` where it is the whole value.
#[derive(Debug, PartialEq, Eq, Drop)]
pub struct NumberPlace {
    pub kind: NumberKind,
    pub path: Text,
}

/// Why a line has no record. How many characters stand before a place is counted in `before`.
#[derive(Debug, PartialEq, Eq, Drop)]
pub enum LineFault {
    /// It has more bytes than a line may have.
    TooLong,
    /// It is no UTF-8: so many bytes stand before the first that is not.
    NotUtf8 { place: usize },
    /// NUL stands in it.
    Nul { before: usize },
    /// It begins as no JSON text does.
    Start { before: usize, start: Start },
    /// Its scanner or its parser found this.
    Syntax { before: usize, info: ScanInfo },
    /// It is not one value.
    NotOne,
    /// An alias stands in it, as `*a`.
    Alias,
    /// Something in it is no value.
    NoValue,
    /// A number stands in it that is no whole number of 128 bits.
    SomeNumber,
    /// It is read as another kind of value than it begins as.
    Misfit,
    /// The same of a number, and where it stands.
    Number(NumberPlace),
    /// It has a key that JSON has no text for.
    Key,
}

/// How many characters stand before a mark.
fn before(mark: Marker) -> usize
    ensures { result ≡ mark.index }
{
    mark.index()
}

/// The fault of a line that is no YAML.
fn scan_fault(error: &ScanError) -> LineFault
    ensures { result ≡ scan_fault error.now }
{
    match error {
        ScanError::Syntax(mark, info) => LineFault::Syntax {
            before: before(*mark),
            info: *info,
        },
        ScanError::OutOfMemory => LineFault::NoValue,
    }
}

/// The fault of a line that is read as no tree.
pub(crate) fn fault_of(refusal: Refusal) -> LineFault
    ensures { result ≡ fault_of refusal }
{
    match refusal {
        Refusal::NoYaml(error) => scan_fault(&error),
        Refusal::NotOneDocument => LineFault::NotOne,
        Refusal::Alias => LineFault::Alias,
        Refusal::NoTree => LineFault::NoValue,
        Refusal::Number => LineFault::SomeNumber,
    }
}

/// What follows a line's number. A column is counted from 1.
impl fmt::Display for LineFault {
    ghost use Rattle.std.specs.Prelude.{Some};
    ghost use Rattle.snap_explain.specs.Words.{fault_text};

    ghost output = { λ fault. Some (fault_text fault) };

    fn fmt<W: fmt::Write>(&self, f: &mut fmt::Formatter<W>) -> fmt::Result {
        match self {
            LineFault::TooLong => f.write_str(
                ": more than 1,048,576 bytes; no line after it was read",
            ),
            LineFault::NotUtf8 { place } => {
                let byte = *place as u128 + 1;
                write!(f, ", byte {byte}: not UTF-8")
            }
            LineFault::Nul { before } => {
                let column = *before as u128 + 1;
                write!(f, ", column {column}: NUL")
            }
            LineFault::Start { before, start } => {
                let column = *before as u128 + 1;
                write!(f, ", column {column}: {}", start.text())
            }
            LineFault::Syntax { before, info } => {
                let column = *before as u128 + 1;
                write!(f, ", column {column}: {}", info.text())
            }
            LineFault::NotOne => f.write_str(": not one value"),
            LineFault::Alias => f.write_str(": an alias"),
            LineFault::NoValue => f.write_str(": something in it is no value"),
            LineFault::SomeNumber => f.write_str(": a number that is no whole number of 128 bits"),
            LineFault::Misfit => f.write_str(": read as another kind of value than it begins as"),
            LineFault::Number(place) => write!(f, ": {} at {}", place.kind.text(), place.path),
            LineFault::Key => f.write_str(": a key that JSON has no text for"),
        }
    }
}
