//! Says why an input is refused: each finding on a line of its own. It reads only, and writes nothing but what it finds.
//! It asks the tools' own readers, so that a line is said to be bad exactly where they refuse it.
//!
//! In the order in which data flows: `fault` (why a line has no record, in words), `start` (what a line begins with that no JSON text
//! begins with), `place` (where a number stands in a value), `cause` (the fault of a line), `saying` (the finding of a line, written),
//! `lines` (the loop over the lines), `status` and `usage` (what is said of a run, and of the program), `mask` (what the filter of JSON
//! lines refuses); `front` (a page that the program on pages gives no answer of), `failing` (that finding, written), `page`, `no_tree`,
//! `page_words` and `page_path` (what is told of the page, its header, the words and the path); `position` (lines and columns), `outline` (the nodes of a text), `pointing` (the node that a reason speaks of),
//! `nearest`, `number_path`, `hint` (what helps), `seen` (the key or the selector there), `form`, `cause_word`, `json` and `json_findings` (how findings are written), `refusal` (the reason in words), `trouble` (why a request would not pass, in words),
//! `line_ends`, `folder`, `detail`, `misfit` (why a file gives no pass, and what helps), `earlier`, `against` (which document came first), `outside` (whether a path leaves the workspace), `notes`, `noting` (what is to be said of a request that passes), `foreseeing` (what would become of a request), `trouble_lines` (the lines on a request), `remarks` (what is seen in a request that passes), `remark_lines` (all lines on a request), `telling` (the finding of a document), `stream` (the
//! loop over the documents), `explaining` (the tool that the words name), `command` (the run that the arguments ask for).
#![tactic(auto)]

mod against;
pub mod cause;
mod cause_word;
pub mod command;
mod detail;
mod earlier;
pub mod explaining;
pub mod failing;
pub mod fault;
mod folder;
mod foreseeing;
pub mod form;
pub mod front;
mod hint;
mod json;
mod json_findings;
mod line_ends;
pub mod lines;
pub mod mask;
mod misfit;
mod nearest;
mod no_tree;
pub mod notes;
mod noting;
mod number_path;
mod outline;
mod outside;
mod page;
mod page_path;
mod page_words;
pub mod place;
mod pointing;
pub mod position;
mod refusal;
mod remark_lines;
pub mod remarks;
pub mod saying;
mod seen;
pub mod start;
pub mod status;
pub mod stream;
pub mod telling;
pub mod trouble;
mod trouble_lines;
pub mod usage;

pub use command::program;
pub use explaining::explain;
pub use status::ExplainStatus;
