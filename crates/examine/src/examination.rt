// What an examination finds, or why there is none.
ghost use Rattle.std.specs.Prelude.{◌≡◌};
ghost use Rattle.examine.specs.declared.examination.ExamineError.TheVariants.{NoMemory};

use categories::category::Category;
use figure::outcome::Figures;
use std::alloc::{AllocError, AllocFailed};

#[derive(Drop)]
pub struct Examination {
    // The passes that settling the whole task took.
    pub passes: u32,
    pub figures: Figures,
    // A row for each fetch, block by block: its category at each level of its block, innermost first. A row is eight
    // wide, since no block has more levels; the places past a block's levels mean nothing.
    pub table: Vec<[Category; 8]>,
}

#[derive(Clone, Copy)]
pub enum ExamineError {
    // The working list is shorter than this. Not `writer::TooShort`, which says the length of a text.
    TooShort(usize),
    NoMemory,
}

impl From<AllocError> for ExamineError {
    ghost from_gives = { λ _ r. r ≡ NoMemory };

    fn from(_error: AllocError) -> ExamineError {
        ExamineError::NoMemory
    }
}

impl<T: Drop> From<AllocFailed<T>> for ExamineError {
    ghost from_gives = { λ _ r. r ≡ NoMemory };

    fn from(_entry: AllocFailed<T>) -> ExamineError {
        // For callers that push onto lists and answer this error; no function here pushes.
        ExamineError::NoMemory
    }
}
