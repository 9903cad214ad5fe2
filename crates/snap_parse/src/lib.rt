//! Documents of a YAML text, as values, and all that they are made by: events, the parser, the values themselves.
//!
//! In the order in which data flows: `scalar` (the values of scalars), `loader` (documents from events), `load` (all documents
//! of a text), `laws` (what the documents of events are).
#![tactic(auto)]

pub mod laws;
mod load;
mod loader;
mod scalar;

pub use load::YamlLoader;
pub use loader::Documents;
pub use scalar::plain_value;
pub use snap_parse_events::{
    Event, EventReceiver, LoadError, MarkedEventReceiver, ParseResult, Parser,
};
pub use snap_scan_tokens::{Marker, ScanError, ScanInfo, TScalarStyle, Tag};
pub use snap_yaml::{Array, Hash, Yaml, YamlIter};
