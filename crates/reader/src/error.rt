// Why there is no record.
ghost use Rattle.std.specs.Prelude.{◌≡◌};
ghost use Rattle.reader.specs.declared.error.ReadError.TheVariants.{Fault, NoMemory};

use std::alloc::AllocFailed;
use syntax::fault::TextFault;

// The fault of the text, or no memory.
#[derive(Clone, Copy, PartialEq, Eq, Debug)]
pub enum ReadError {
    // The text is that of no record.
    Fault(TextFault),
    // There is no memory for its lists.
    NoMemory,
}

impl From<TextFault> for ReadError {
    ghost from_gives = { λ f r. r ≡ Fault f };

    fn from(fault: TextFault) -> ReadError {
        ReadError::Fault(fault)
    }
}

impl<T: Drop> From<AllocFailed<T>> for ReadError {
    ghost from_gives = { λ _ r. r ≡ NoMemory };

    fn from(_entry: AllocFailed<T>) -> ReadError {
        ReadError::NoMemory
    }
}
