//! The words of a command line, for the programs of this house: `arguments` (the words that the system gives), and `asked` (what a
//! program says of itself, where its only word asks for that).
#![tactic(auto)]

pub mod arguments;
pub mod asked;

pub use arguments::words_in;
pub use asked::text_in;
