//! The forms of texts by which snapshots agree, and the string literals that inline texts are written as: functions over `&str`.
//! Two texts agree where their normal forms are equal; texts of insta's first formats agree by an older form too.
//! A literal is read by the grammar of Rust's string literals, and what is written for a text reads as that text again.
//!
//! In the order in which data flows: `holds` (what a text holds), `lines`, `normal` and `legacy` (the forms of any text), `inline`
//! and `frame` (those of an inline text), `error`, `units`, `hashes`, `read` (what a literal reads as) and `fronts` (the literal
//! that a longer text begins with), `spelling` and `literal` (how an inline text is written, and what is made of a literal's
//! text), `laws`.
#![tactic(auto)]

pub mod error;
pub mod frame;
pub mod fronts;
pub mod hashes;
pub mod holds;
pub mod inline;
pub mod laws;
pub mod legacy;
pub mod lines;
pub mod literal;
pub mod normal;
pub mod read;
pub mod spelling;
pub mod units;

pub use error::LiteralError;
pub use fronts::{after_literal, literal_len};
pub use hashes::required_hashes;
pub use inline::{min_indentation, normalize_inline};
pub use literal::literal_is_open;
pub use read::read_literal;
