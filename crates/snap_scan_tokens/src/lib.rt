//! The tokens of YAML, and the readers of one token: functions from a place in a text to what stands there, and the place after it.
//!
//! In the order in which data flows: `marker` (places), `info` (what is wrong with a text), `tag` and `token`, `characters` (their kinds),
//! `cursor` (a place, and what is left of the text), `folding` (a scalar's text as it is read), and the readers: `plain`,
//! `escapes` and `quoted`.
#![tactic(auto)]

pub mod characters;
pub mod cursor;
pub mod escapes;
pub mod folding;
pub mod info;
pub mod marker;
pub mod plain;
pub mod quoted;
pub mod tag;
pub mod token;

pub use cursor::Cursor;
pub use info::{ScanError, ScanInfo, keep};
pub use marker::Marker;
pub use plain::{PlainScalar, scan_plain_scalar};
pub use quoted::{Quotes, scan_quoted};
pub use tag::{Tag, TagTexts};
pub use token::{TEncoding, TScalarStyle, Token, TokenType};
