//! Why a tree has no JSON text.
use snap_content::OutOfMemory;
use thiserror::Error;

/// Why a tree was not written as JSON.
#[derive(Clone, Copy, Debug, PartialEq, Eq, Error)]
pub enum JsonError {
    /// A key of a map is neither a text, nor a unit variant, nor a whole number.
    #[error("JsonKey")]
    JsonKey,
    #[error("OutOfMemory")]
    OutOfMemory,
}

impl From<OutOfMemory> for JsonError {
    ghost use Rattle.std.specs.Prelude.{◌≡◌};
    ghost use Rattle.snap_json.specs.declared.error.JsonError.TheVariants.{OutOfMemory};

    ghost from_gives = { λ _ e. e ≡ OutOfMemory };

    fn from(_error: OutOfMemory) -> JsonError {
        JsonError::OutOfMemory
    }
}
