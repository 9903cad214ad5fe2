//! What is wrong with a text, and how it is said.
ghost use Rattle.std.specs.Prelude.{◌≡◌, Some};
ghost use Rattle.snap_scan_tokens.specs.Info.{info_text};

use crate::marker::Marker;
use snap_content::OutOfMemory;
use std::alloc::{AllocError, AllocFailed};
use std::error::Error;
use std::fmt;

/// What is wrong with a text. `S1` to `S36` are found while it is cut into tokens, `P1` to `P9` while tokens are put together.
#[derive(Clone, Copy, Debug, PartialEq, Eq)]
pub enum ScanInfo {
    S1,
    S2,
    S3,
    S4,
    S5,
    S6,
    S7,
    S8,
    S9,
    S10,
    S11,
    S12,
    S13,
    S14,
    S15,
    S16,
    S17,
    S18,
    S19,
    S20,
    S21,
    S22,
    S23,
    S24,
    S25,
    S26,
    S27,
    S28,
    S29,
    S30,
    S31,
    S32,
    S33,
    S34,
    S35,
    S36,
    P1,
    P2,
    P3,
    P4,
    P5,
    P6,
    P7,
    P8,
    P9,
}

impl ScanInfo {
    /// What is wrong, in words.
    pub fn text(&self) -> &'static str
        ensures { result.now ≡ info_text self.now }
    {
        match self {
            ScanInfo::S1 => "simple key expect ':'",
            ScanInfo::S2 => "simple key expected",
            ScanInfo::S3 => "unexpected character: `%'",
            ScanInfo::S4 => "unexpected character: `@'",
            ScanInfo::S5 => "unexpected character: ``'",
            ScanInfo::S6 =>
                "while scanning a directive, did not find expected comment or line break",
            ScanInfo::S7 =>
                "while scanning a YAML directive, did not find expected digit or '.' character",
            ScanInfo::S8 => "while scanning a directive, could not find expected directive name",
            ScanInfo::S9 =>
                "while scanning a directive, found unexpected non-alphabetical character",
            ScanInfo::S10 => "while scanning a YAML directive, found extremely long version number",
            ScanInfo::S11 =>
                "while scanning a YAML directive, did not find expected version number",
            ScanInfo::S12 => "while scanning TAG, did not find expected whitespace or line break",
            ScanInfo::S13 => "while scanning a tag, did not find the expected '>'",
            ScanInfo::S14 => "while scanning a tag, did not find expected whitespace or line break",
            ScanInfo::S15 => "while scanning a tag, did not find expected '!'",
            ScanInfo::S16 => "while parsing a tag directive, did not find expected '!'",
            ScanInfo::S17 => "while parsing a tag, did not find expected tag URI",
            ScanInfo::S18 => "while parsing a tag, did not find URI escaped octet",
            ScanInfo::S19 => "while parsing a tag, found an incorrect leading UTF-8 octet",
            ScanInfo::S20 => "while parsing a tag, found an incorrect trailing UTF-8 octet",
            ScanInfo::S21 => "while parsing a tag, found an invalid UTF-8 codepoint",
            ScanInfo::S22 =>
                "while scanning an anchor or alias, did not find expected alphabetic or numeric character",
            ScanInfo::S23 => "recursion limit exceeded",
            ScanInfo::S24 => "block sequence entries are not allowed in this context",
            ScanInfo::S25 => "\"-\" is only valid inside a block",
            ScanInfo::S26 =>
                "while scanning a block scalar, found an indentation indicator equal to 0",
            ScanInfo::S27 =>
                "while scanning a block scalar, did not find expected comment or line break",
            ScanInfo::S28 =>
                "while scanning a block scalar, found a tab character where an indentation space is expected",
            ScanInfo::S29 => "while scanning a quoted scalar, found unexpected document indicator",
            ScanInfo::S30 => "while scanning a quoted scalar, found unexpected end of stream",
            ScanInfo::S31 => "while parsing a quoted scalar, found unknown escape character",
            ScanInfo::S32 =>
                "while parsing a quoted scalar, did not find expected hexadecimal number",
            ScanInfo::S33 =>
                "while parsing a quoted scalar, found invalid Unicode character escape code",
            ScanInfo::S34 => "while scanning a plain scalar, found a tab",
            ScanInfo::S35 => "mapping keys are not allowed in this context",
            ScanInfo::S36 => "mapping values are not allowed in this context",
            ScanInfo::P1 => "did not find expected <stream-start>",
            ScanInfo::P2 => "did not find expected <document start>",
            ScanInfo::P3 => "while parsing node, found unknown anchor",
            ScanInfo::P4 => "while parsing a node, did not find expected node content",
            ScanInfo::P5 => "while parsing a block mapping, did not find expected key",
            ScanInfo::P6 => "while parsing a flow mapping, did not find expected ',' or '}'",
            ScanInfo::P7 => "while parsing a flow sequence, expected ',' or ']'",
            ScanInfo::P8 => "while parsing a block collection, did not find expected '-' indicator",
            ScanInfo::P9 => "unexpected eof",
        }
    }
}

/// Why a text isn't cut into tokens.
#[derive(Clone, Copy, Debug, PartialEq, Eq)]
pub enum ScanError {
    /// The text is no YAML: where, and what is wrong.
    Syntax(Marker, ScanInfo),
    OutOfMemory,
}

impl ScanError {
    pub fn new(loc: Marker, info: ScanInfo) -> ScanError
        ensures { result ≡ ScanError.Syntax loc info }
    {
        ScanError::Syntax(loc, info)
    }
}

impl fmt::Display for ScanError {
    ghost use Rattle.std.specs.Prelude.{Some};
    ghost use Rattle.snap_scan_tokens.specs.Info.{error_text};

    ghost output = { λ error. Some (error_text error) };

    fn fmt<W: fmt::Write>(&self, f: &mut fmt::Formatter<W>) -> fmt::Result {
        match self {
            ScanError::Syntax(mark, info) => {
                let column = mark.col as u128 + 1;
                write!(f, "{} at line {} column {}", info.text(), mark.line, column)
            }
            ScanError::OutOfMemory => f.write_str("OutOfMemory"),
        }
    }
}

impl Error for ScanError {}

impl From<AllocError> for ScanError {
    ghost use Rattle.std.specs.Prelude.{◌≡◌};
    ghost use Rattle.snap_scan_tokens.specs.declared.info.ScanError.TheVariants.{OutOfMemory as NoMemory};

    ghost from_gives = { λ _ e. e ≡ NoMemory };

    fn from(_error: AllocError) -> ScanError {
        ScanError::OutOfMemory
    }
}

impl From<OutOfMemory> for ScanError {
    ghost use Rattle.std.specs.Prelude.{◌≡◌};
    ghost use Rattle.snap_scan_tokens.specs.declared.info.ScanError.TheVariants.{OutOfMemory as NoMemory};

    ghost from_gives = { λ _ e. e ≡ NoMemory };

    fn from(_error: OutOfMemory) -> ScanError {
        ScanError::OutOfMemory
    }
}

impl<T: Drop> From<AllocFailed<T>> for ScanError {
    ghost use Rattle.std.specs.Prelude.{◌≡◌};
    ghost use Rattle.snap_scan_tokens.specs.declared.info.ScanError.TheVariants.{OutOfMemory as NoMemory};

    ghost from_gives = { λ _ e. e ≡ NoMemory };

    fn from(_error: AllocFailed<T>) -> ScanError {
        ScanError::OutOfMemory
    }
}

/// Keeps an error for good, and returns it.
pub fn keep(kept: &mut Option<ScanError>, error: &ScanError) -> ScanError
    ensures result { result ≡ error.now }
    ensures kept { kept.new ≡ Some error.now }
{
    *kept = Some(*error);
    *error
}
