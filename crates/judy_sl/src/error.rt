use std::alloc::AllocError;
use thiserror::Error;

/// Why an insert added no key. The array is then as it was before the call, as contracts see it.
#[derive(Clone, Copy, Debug, PartialEq, Eq, Error)]
pub enum SlError {
    /// The bytes are no key: more than a key may have, or one of them is zero (limit: this project's own).
    #[error("no key of strings")]
    BadKey,
    /// The key is absent, and the array holds as many keys as its limit (limit: this project's own).
    #[error("the array is full")]
    Full,
    /// The key is absent and there is room below the limit, but no memory for one more key.
    #[error("out of memory")]
    NoMemory,
}

impl From<AllocError> for SlError {
    ghost use Rattle.std.specs.Prelude.{◌≡◌};
    ghost use Rattle.judy_sl.specs.declared.error.SlError.TheVariants.{NoMemory};

    ghost from_gives = { λ _ error. error ≡ NoMemory };

    fn from(_: AllocError) -> SlError {
        SlError::NoMemory
    }
}
