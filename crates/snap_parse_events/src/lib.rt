//! Events, and the parser, which puts tokens together to them: they form documents whatever the text is.
//!
//! In the order in which data flows: `event` (what events are), `tokens` (the scanner, and a token that was looked at), `state`
//! (where a parser stands), `anchors` (the names that it knows), `machine` (what all states share), the states in `documents`,
//! `node`, `block` and `flow`, `parser` (the calls), `receiver` (what gets events), `error` and `load` (events handed on to a
//! receiver), and `laws` (what may come is a stream of documents).
#![tactic(auto)]

mod anchors;
mod block;
mod documents;
mod error;
mod event;
mod flow;
pub mod laws;
mod load;
mod machine;
mod node;
mod parser;
mod receiver;
mod state;
mod tokens;

pub use error::LoadError;
pub use event::Event;
pub use parser::{ParseResult, Parser};
pub use receiver::{EventReceiver, MarkedEventReceiver};
