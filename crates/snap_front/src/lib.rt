//! Documents with a header of YAML before their body, as notes, posts and pages have it: what stands in the header at the end of a
//! path is got, set and removed, and the body stays character by character.
//!
//! In the order in which data flows: `split` (a text, its header and its body), `step`, `path` and `path_error` (paths, read from
//! texts), `trees` (what stands in a tree at the end of a path), `setting` (another value put there), `removing` (what stands there
//! taken out), `reading` (texts read as trees), `refusal`, `reply` and `command` (what is asked of documents, and replied), `heads`
//! (one document), `store` (documents by their names), `runs` (commands in turn), `front_error`, `words` and `answering` (one document and
//! one command on it, as words ask for it), `status` and `usage` (what is said of a run, and of the program), `invocation` (the run
//! that the arguments ask for), `laws`.
#![tactic(auto)]

pub mod answering;
pub mod command;
pub mod front_error;
mod heads;
pub mod invocation;
pub mod laws;
pub mod path;
pub mod path_error;
mod reading;
mod refusal;
pub mod removing;
pub mod reply;
pub mod runs;
pub mod setting;
pub mod split;
pub mod status;
pub mod step;
pub mod store;
pub mod trees;
pub mod usage;
mod words;

pub use answering::front;
pub use command::Command;
pub use front_error::FrontError;
pub use invocation::{front_program, program};
pub use path::Path;
pub use path_error::PathError;
pub use removing::remove_tree;
pub use reply::{Replies, Reply};
pub use runs::run_commands;
pub use setting::set_tree;
pub use split::front_read;
pub use status::FrontStatus;
pub use step::Step;
pub use store::FrontStore;
pub use trees::get_tree;
