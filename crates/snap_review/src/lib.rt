//! Review of what assertions left waiting. New texts of literals are accepted into their source file, or rejected; a new snapshot file
//! is accepted in place of the one beside it, or rejected.
//! Records of changed literals wait beside the source file; each asks for a new literal in place of the first one behind an `@` from
//! its line on. No Rust is parsed: an `@` in a comment counts.
//!
//! In the order in which data flows: `places` (where the first literal stands from a line on), `patching` (a source with new literals),
//! `chosen` (what the records ask for), `words` (what is asked of the program), `status` (how a run ended), `reading` (the records and
//! the source), `plan` (what is to be changed and answered), `strays` and `file_plan` (the same of a snapshot file), `request_plan`
//! (either), `carrying` (the plan carried out), `reviewing` (one run), `previewing` (what a run would come to), `usage` and `invocation`
//! (the program), `laws`.
#![tactic(auto)]

pub mod carrying;
pub mod chosen;
pub mod file_plan;
pub mod invocation;
pub mod laws;
pub mod patching;
pub mod places;
pub mod plan;
pub mod previewing;
pub mod reading;
pub mod request_plan;
pub mod reviewing;
pub mod status;
pub mod strays;
pub mod usage;
pub mod words;

pub use invocation::{program, review_program};
pub use patching::{NewLiteral, Refusal, patched};
pub use previewing::preview_review;
pub use reviewing::review;
pub use status::ReviewStatus;
