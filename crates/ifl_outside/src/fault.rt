ghost use Rattle.std.specs.Prelude.{◌≡◌};
ghost use Rattle.ifl_outside.specs.declared.fault.HostError.TheVariants.{Memory};

use std::alloc::{AllocError, AllocFailed};
use thiserror::Error;

/// Why a call of a host gave nothing.
#[derive(Clone, Copy, Debug, PartialEq, Eq, Error)]
pub enum HostError {
    /// The host failed, and its count of faults rose.
    #[error("the host failed")]
    Failed,
    /// There was no memory for the call.
    #[error("out of memory")]
    Memory,
}

impl From<AllocError> for HostError {
    ghost from_gives = { λ _ e. e ≡ Memory };

    fn from(_: AllocError) -> HostError {
        HostError::Memory
    }
}

impl<T: Drop> From<AllocFailed<T>> for HostError {
    ghost from_gives = { λ _ e. e ≡ Memory };

    fn from(_: AllocFailed<T>) -> HostError {
        HostError::Memory
    }
}
