// The figures, or why there are none.
ghost use Rattle.std.specs.Prelude.{◌≡◌};
ghost use Rattle.figure.specs.declared.outcome.FigureError.TheVariants.{NoMemory};

use std::alloc::AllocError;

// What a task costs at most.
#[derive(Clone, Copy)]
pub struct Figures {
    // The worst case in cycles.
    pub cycles: u64,
    // The greatest pair of charged misses and fetches, by the misses first.
    pub greatest: (u64, u64),
}

// Why there are no figures.
#[derive(Clone, Copy)]
pub enum FigureError {
    // The table has not one row for each fetch.
    TableLength,
    // There is no memory for the costs.
    NoMemory,
}

impl From<AllocError> for FigureError {
    ghost from_gives = { λ _ r. r ≡ NoMemory };

    fn from(_error: AllocError) -> FigureError {
        FigureError::NoMemory
    }
}
