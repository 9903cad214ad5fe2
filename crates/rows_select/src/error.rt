//! Why a line asks nothing.
use thiserror::Error;

#[derive(Clone, Copy, Debug, Error)]
pub(crate) enum AskError {
    /// The name is that of no question.
    #[error("NoQuestion")]
    NoQuestion,
    /// A column is no step of a path.
    #[error("NoStep")]
    NoStep,
    /// A column is no bound.
    #[error("NoBound")]
    NoBound,
}
