//! How assertions are judged: the mode and its flags, settings, and what is replaced before a tree is printed.
//!
//! In the order in which data flows: `config` (modes and flags), `redactions` and `copies` of them, `settings`.
#![tactic(auto)]

pub mod config;
pub mod copies;
pub mod redactions;
pub mod settings;

pub use config::{Config, Flags, Update};
pub use copies::CloneError;
pub use redactions::{Redactions, Replacements};
pub use settings::Settings;
