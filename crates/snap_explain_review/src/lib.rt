//! Why a review would be refused, in words. It reads only, and writes nothing but the reason.
//!
//! In the order in which data flows: `unread` (what is wrong with what waits), `reason` (the line that tells the reason), `status` (how a
//! run ended), `telling` (the reason, written), `explaining` (the run).
#![tactic(auto)]

pub mod explaining;
mod reason;
pub mod status;
mod telling;
mod unread;

pub use explaining::explain_review;
pub use status::ReasonStatus;
