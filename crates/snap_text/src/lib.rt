//! The texts of snapshots, and when two of them agree.
//! Two agree where their normal forms are equal: white space at the end, the kind of line ends and returns do not count.
//! Texts of insta's first format agree by an older form too.
//!
//! An inline text is written as a literal that reads back as contents that match it.
//!
//! `lines`, `normal` and `legacy` hand on what `snap_text_literals` knows of texts, as the calls on literals are; `contents` is a
//! snapshot's text, compared and written, and `laws` what comparing promises.
#![tactic(auto)]

pub mod contents;
pub mod laws;
pub mod legacy;
pub mod lines;
pub mod normal;

pub use contents::{TextSnapshotContents, TextSnapshotKind};
pub use snap_text_literals::{
    LiteralError, after_literal, literal_is_open, literal_len, min_indentation, normalize_inline,
    read_literal, required_hashes,
};
