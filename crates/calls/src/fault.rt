// What can be wrong with a call on a bench.
ghost use Rattle.std.specs.Prelude.{◌≡◌};
ghost use Rattle.calls.specs.Fault.{number, part_number, place};

use run::StepFault;

// A part of a task that a question names.
#[derive(Clone, Copy)]
pub enum Part {
    Block = 0,
    Fetch = 1,
    Level = 2,
}

impl Part {
    // The number that a refusal places the part by.
    pub fn number(self) -> usize
        ensures { result ≡ part_number self }
    {
        self as usize
    }
}

// The rules that a call is held to, in this order.
#[derive(Clone, Copy)]
pub enum BenchFault {
    // The call is not of the bench's stage, whose number this is.
    WrongStage(usize),
    // The starting list is not as long as the cache has slots.
    StartLength(usize),
    // The walk cannot go on to the block asked for.
    Step(StepFault),
    // The task has no such part.
    NoSuch(Part),
    // A buffer or a working list is shorter than this: one rule for what the writer and the examination say of what
    // they are lent.
    TooShort(usize),
}

impl BenchFault {
    // The number of the refusal.
    pub fn number(&self) -> u32
        ensures { result ≡ number self.now }
    {
        // A match: a case that carries a value cannot have its number where it is named.
        match self {
            BenchFault::WrongStage(_) => 15,
            BenchFault::StartLength(_) => 16,
            BenchFault::Step(StepFault::NoEdge(_)) => 17,
            BenchFault::Step(StepFault::LimitSpent(_)) => 18,
            BenchFault::NoSuch(_) => 19,
            BenchFault::TooShort(_) => 20,
        }
    }

    // The stage, block, header, part or length that is refused.
    pub fn place(&self) -> usize
        ensures { result ≡ place self.now }
    {
        match *self {
            BenchFault::WrongStage(stage) => stage,
            BenchFault::StartLength(length) | BenchFault::TooShort(length) => length,
            BenchFault::Step(StepFault::NoEdge(block) | StepFault::LimitSpent(block)) => block,
            BenchFault::NoSuch(part) => part.number(),
        }
    }
}
