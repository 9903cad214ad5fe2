//! Why a line stands for no tree.
use snap_content::OutOfMemory;
use thiserror::Error;

#[derive(Clone, Copy, Debug, Error)]
pub enum LineError {
    #[error("NoTree")]
    NoTree,
    #[error("OutOfMemory")]
    OutOfMemory,
}

impl From<OutOfMemory> for LineError {
    fn from(_error: OutOfMemory) -> LineError {
        LineError::OutOfMemory
    }
}
