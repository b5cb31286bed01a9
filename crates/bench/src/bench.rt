// A bench, and the calls that it takes.
ghost use contract.Monad.{fact};
ghost use Rattle.std.specs.Prelude.{◌≡◌};
ghost use Rattle.calls.specs.History.{EveryHistoryStands};
ghost use Rattle.calls.specs.View.{unused};
ghost use Rattle.bench.specs.View.{view};

mod changes;
mod questions;
mod stages;

use crate::stage::Stage;
use std::alloc::Global;

// Where a bench takes its memory, and its stage with what that holds.
#[derive(Drop)]
pub struct Bench {
    heap: Global,
    stage: Stage,
}

impl Bench {
    // An unused bench. After every list of calls on it, whatever they were handed and however they were answered, the law of
    // the bench holds.
    pub fn new(heap: Global) -> Bench
        ensures view { view result ≡ unused }
        ensures* law { fact 𝓤 EveryHistoryStands ∗ ⊤ₛ }
    {
        Bench {
            heap,
            stage: Stage::Unused,
        }
    }
}
