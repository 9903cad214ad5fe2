//! Values as texts: sorted and redacted as the settings say, and then printed in a format.
//!
//! In the order in which data flows: `format` (the formats), `serialize` (the calls), `laws`.
#![tactic(auto)]

pub mod format;
pub mod laws;
pub mod serialize;

pub use format::SerializationFormat;
pub use serialize::{serialize_content, serialize_value, serialize_value_redacted};
