// Why a call on a bench is refused.
ghost use Rattle.std.specs.Prelude.{◌≡◌, Some};
ghost use Rattle.calls.specs.Refusal.{number, layer, place, refusal_line, no_memory, examine_fault};
ghost use Rattle.calls.specs.declared.fault.BenchFault.TheVariants.{Step as stuck, TooShort as short};
ghost use Rattle.calls.specs.declared.refusal.Refusal.TheVariants.{Record, Bench};

use crate::fault::BenchFault;
use examine::examination::ExamineError;
use load::refusal as record;
use run::StepFault;
use std::alloc::AllocError;
use std::fmt;
use writer::TooShort;

// A refusal carries the fault of the layer that found it, whole. A call that runs out of memory is refused as a record is.
#[derive(Clone, Copy)]
pub enum Refusal {
    Record(record::Refusal),
    Bench(BenchFault),
}

impl From<record::Refusal> for Refusal {
    ghost from_gives = { λ e r. r ≡ Record e };

    fn from(refusal: record::Refusal) -> Refusal {
        Refusal::Record(refusal)
    }
}

impl From<BenchFault> for Refusal {
    ghost from_gives = { λ f r. r ≡ Bench f };

    fn from(fault: BenchFault) -> Refusal {
        Refusal::Bench(fault)
    }
}

impl From<StepFault> for Refusal {
    ghost from_gives = { λ f r. r ≡ Bench (stuck f) };

    fn from(fault: StepFault) -> Refusal {
        Refusal::Bench(BenchFault::Step(fault))
    }
}

impl From<ExamineError> for Refusal {
    ghost from_gives = { λ e r. r ≡ examine_fault e };

    fn from(error: ExamineError) -> Refusal {
        match error {
            ExamineError::TooShort(needed) => Refusal::Bench(BenchFault::TooShort(needed)),
            ExamineError::NoMemory => Refusal::Record(record::Refusal::NoMemory),
        }
    }
}

impl From<TooShort> for Refusal {
    ghost from_gives = { λ e r. r ≡ Bench (short e.needed) };

    fn from(error: TooShort) -> Refusal {
        Refusal::Bench(BenchFault::TooShort(error.needed))
    }
}

impl From<AllocError> for Refusal {
    ghost from_gives = { λ _ r. r ≡ no_memory };

    fn from(_error: AllocError) -> Refusal {
        Refusal::Record(record::Refusal::NoMemory)
    }
}

impl Refusal {
    // The number of the refusal; 0 where memory ran out.
    pub fn number(&self) -> u32
        ensures { result ≡ number self.now }
    {
        // As in the two below, what a case holds answers for itself.
        match self {
            Refusal::Record(refusal) => refusal.number(),
            Refusal::Bench(fault) => fault.number(),
        }
    }

    // The layer that refuses.
    pub fn layer(&self) -> &'static str
        ensures { result.now ≡ layer self.now }
    {
        match self {
            Refusal::Record(refusal) => refusal.layer(),
            Refusal::Bench(_) => "bench",
        }
    }

    // What is refused: a line, a part of the graph, or what the bench's fault names.
    pub fn place(&self) -> usize
        ensures { result ≡ place self.now }
    {
        match self {
            Refusal::Record(refusal) => refusal.place(),
            Refusal::Bench(fault) => fault.place(),
        }
    }
}

impl fmt::Display for Refusal {
    ghost output = { λ x. Some (refusal_line x) };

    fn fmt<W: fmt::Write>(&self, f: &mut fmt::Formatter<W>) -> fmt::Result {
        // Not by `{refusal}` of a record's refusal: a match with one arm for each is longer than this line.
        let number = self.number();
        let layer = self.layer();
        let place = self.place();
        write!(f, "refused={number},{layer},{place}")
    }
}
