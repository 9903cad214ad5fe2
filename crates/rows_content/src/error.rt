//! Why a line asks nothing.
use thiserror::Error;

#[derive(Clone, Copy, Debug, Error)]
pub(crate) enum AskError {
    /// The word is that of no question.
    #[error("NoQuestion")]
    NoQuestion,
    /// The tree holds nothing that can be counted.
    #[error("NothingHeld")]
    NothingHeld,
    /// The column is no value of the type, or the type is none.
    #[error("NoValue")]
    NoValue,
    /// The step is none.
    #[error("NoStep")]
    NoStep,
    /// The name is that of no error.
    #[error("NoError")]
    NoError,
}
