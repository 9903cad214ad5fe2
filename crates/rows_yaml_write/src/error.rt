//! Why a row asks nothing.
use thiserror::Error;

#[derive(Clone, Copy, Debug, Error)]
pub(crate) enum AskError {
    /// The name is that of no question.
    #[error("NoQuestion")]
    NoQuestion,
    /// The name is that of no call.
    #[error("NoCall")]
    NoCall,
    /// The columns are no value.
    #[error("NoValue")]
    NoValue,
    /// A column is no index.
    #[error("NoIndex")]
    NoIndex,
    /// A list is asked for, and the value is none.
    #[error("NoList")]
    NoList,
    /// An array is asked for, and the value is none.
    #[error("NoArray")]
    NoArray,
}
