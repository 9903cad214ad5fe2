//! Questions on the value of a request: which of its redactions hits nothing in it, and whether a map of it has a key twice.
//!
//! In the order in which data flows: `hitting` (what a selector hits), `missing` (the redaction that hits nothing), `keys` (keys that
//! stand twice), `laws`.
#![tactic(auto)]

mod hitting;
pub mod keys;
pub mod laws;
pub mod missing;

pub use keys::has_key_twice;
pub use missing::first_missed;
