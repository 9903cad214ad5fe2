//! One assertion over a store: what it leaves and answers is one stated step. The clauses of `assert_content` say so.
//!
//! In the order in which data flows: `session` (what is remembered), `names` and `literal_names` (the name that is taken), `kept` (what
//! an open block keeps), `duplicates` (a block round a closure), `comparator` and `default` with `same_metadata` (whether a new snapshot
//! matches an old one), `prepare`, `judge`, `strays`, `listed` and `look` (what is there), `settle` and `removal` (what is left), `engine`
//! and `by_comparator` (one assertion of a tree), `file` (one of a text), `payload` (one of a payload), `preview` (what one would answer); of literals `literals` (their snapshots), `record` (their records) and `literal` (one assertion); `value` and `snapshot` (an
//! assertion of any value); `outcome` and `error` (its answer), `laws`.
#![tactic(auto)]

pub mod by_comparator;
pub mod comparator;
pub mod default;
pub mod duplicates;
pub mod engine;
pub mod error;
pub mod file;
mod judge;
mod kept;
pub mod laws;
pub mod listed;
pub mod literal;
mod literal_names;
mod literals;
mod look;
mod names;
pub mod outcome;
mod payload;
mod prepare;
pub mod preview;
mod record;
mod removal;
mod same_metadata;
pub mod session;
mod settle;
pub mod snapshot;
mod strays;
pub mod value;

pub use by_comparator::assert_content_by;
pub use comparator::Comparator;
pub use default::DefaultComparator;
pub use duplicates::with_allow_duplicates;
pub use engine::{assert_content, assert_listed};
pub use error::{AssertError, DuplicateKey};
pub use file::assert_file;
pub use judge::Judged;
pub use listed::Listed;
pub use literal::assert_literal;
pub use outcome::{Outcome, Verdict, Warning, Warnings};
pub use preview::{Preview, preview_content};
pub use session::Session;
pub use snap_assert_place::{BadPlace, Place};
pub use snap_assert_settings::{Config, Flags, Redactions, Settings, Update};
pub use snapshot::assert_snapshot;
pub use value::{AutoName, BinarySnapshotValue, InlineValue, SnapshotValue};
