//! What an assertion does with a tree that does not pass.
use snap_content::Text;

/// What an assertion does with a tree that does not pass.
#[derive(Clone, Copy, Debug, PartialEq, Eq)]
pub enum Update {
    /// Writes the snapshot's file.
    InPlace,
    /// Writes beside it, for a review.
    NewFile,
    /// Writes nothing.
    NoUpdate,
}

/// The flags that the words of a run may hold.
#[derive(Clone, Copy, Debug, PartialEq, Eq)]
pub struct Flags {
    /// `--force`: a tree that passes is written too.
    pub force_update: bool,
    /// `--force-pass`: no answer fails.
    pub force_pass: bool,
    /// `--full`: a tree passes only where its metadata are those of the file too.
    pub full: bool,
    /// `--literal`: texts of several lines are written as literal blocks.
    pub literal: bool,
}

/// How a run treats its assertions.
#[derive(Debug, Drop)]
pub struct Config {
    pub update: Update,
    /// Writes a tree that passes too.
    pub force_update: bool,
    /// A tree passes only where its metadata are those of the file too.
    pub require_full_match: bool,
    /// No answer fails.
    pub force_pass: bool,
    /// Texts of several lines are written as literal blocks.
    pub literal: bool,
    /// The run's own name, which records of literals carry.
    pub run_id: Text,
}
