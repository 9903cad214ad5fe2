//! The scanner: a text cut into the tokens of YAML, at most 4n + 2 of them for n characters.
//!
//! In the order in which data flows: `kind` (what begins at a place), `columns` and `keys` (the open blocks, and the tokens that may
//! still become keys), `fetcher` (the queue of held tokens, and what all fetches share), `between` (blanks and comments), the
//! fetches `stream`, `flow`, `block` and `content`, `dispatch` (one fetch), `ahead` (until a token can be given), `scanner` (the calls).
#![tactic(auto)]

mod ahead;
mod between;
mod block;
mod columns;
mod content;
mod dispatch;
mod fetcher;
mod flow;
mod keys;
mod kind;
mod scanner;
mod stream;

pub use fetcher::ScanResult;
pub use scanner::Scanner;
pub use snap_scan_tokens::{
    Marker, ScanError, ScanInfo, TEncoding, TScalarStyle, Token, TokenType,
};
