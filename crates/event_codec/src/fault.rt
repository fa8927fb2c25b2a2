//! Why a payload can't be read.

ghost use Rattle.std.specs.Prelude.{◌≡◌};
ghost use Rattle.event_codec.specs.declared.fault.CodecError.TheVariants.{Memory, Fault};

use std::alloc::{AllocError, AllocFailed};

/// The first fault of a payload, from left to right. Places are numbered from 0.
#[derive(Clone, Copy, Debug, PartialEq, Eq)]
pub enum CodecFault {
    /// A field isn't there whole.
    Short {
        /// Where the field begins.
        at: usize,
    },
    /// A byte stands behind the last field.
    Long {
        /// The place of the first such byte.
        at: usize,
    },
    /// A tag that isn't read here, or an unknown format.
    BadTag {
        /// The place of the tag.
        at: usize,
    },
    /// A value that no field of this kind has.
    BadValue {
        /// Where the value begins; of a fraction, where its numerator begins.
        at: usize,
    },
}

/// Why there is no event.
#[derive(Debug, Drop)]
pub enum CodecError {
    /// Memory ran out.
    Memory,
    /// The bytes are no event.
    Fault(CodecFault),
}

impl From<AllocError> for CodecError {
    ghost from_gives = { λ _ e. e ≡ Memory };

    fn from(_e: AllocError) -> CodecError {
        CodecError::Memory
    }
}

impl<T: Drop> From<AllocFailed<T>> for CodecError {
    ghost from_gives = { λ _ e. e ≡ Memory };

    fn from(_e: AllocFailed<T>) -> CodecError {
        CodecError::Memory
    }
}

impl From<CodecFault> for CodecError {
    ghost from_gives = { λ f e. e ≡ Fault f };

    fn from(fault: CodecFault) -> CodecError {
        CodecError::Fault(fault)
    }
}
