// The stages of a bench, each with what it holds.
ghost use Rattle.std.specs.Prelude.{◌≡◌, OnErr};
ghost use Rattle.task.specs.View.{task_contents};
ghost use Rattle.run.specs.Open.{run_of};
ghost use Rattle.examine.specs.Findings.{shown};
ghost use Rattle.calls.specs.Held.{Backed, Open};
ghost use Rattle.calls.specs.View.{stage_of};

use calls::fault::*;
use calls::stage::StageName;
use categories::category::Category;
use examine::examination::Examination;
use listing::fetches::category_at;
use marks::places::{fetches_before, level_of};
use run::{OpenWalk, StepFault};
use task::Task;

// A task, and what an examination has found of it.
#[derive(Drop)]
pub struct ExaminedTask {
    pub task: Task,
    pub found: Examination,
    ghost backed: { ∥ Backed (task_contents task) (shown (task_contents task) found) ∥₁ },
}

impl ExaminedTask {
    ghost use Rattle.bench.specs.Walked.{Asked};

    // The category of a fetch of a block at one of its levels, if the task has these.
    pub(crate) fn category(
        &self,
        block: usize,
        fetch: u32,
        level: usize,
    ) -> Result<Category, BenchFault>
        ensures { Asked (task_contents self.now.task) (shown (task_contents self.now.task) self.now.found) block fetch level result }
    {
        let entered = self
            .task
            .record
            .blocks
            .get(block)
            .ok_or(BenchFault::NoSuch(Part::Block))?;
        if fetch >= entered.fetches {
            return Err(BenchFault::NoSuch(Part::Fetch));
        }
        // The named loops around the block, and the whole task.
        let levels = level_of(&self.task, 0, block) + 1;
        if level >= levels {
            return Err(BenchFault::NoSuch(Part::Level));
        }
        let row = fetches_before(&self.task, block) + fetch as usize;
        Ok(category_at(&self.found.table, row, level))
    }
}

// An examined task with an open walk, which is within the limits.
#[derive(Drop)]
pub struct WalkedTask {
    pub examined: ExaminedTask,
    pub walk: OpenWalk,
    ghost open: { ∥ Open (task_contents examined.task) (run_of walk) ∥₁ },
}

impl WalkedTask {
    ghost use Rattle.bench.specs.Walked.{Onward};

    // Goes on to a block, or says why not and stays as it is.
    pub(crate) fn step(&mut self, block: usize) -> Result<(), StepFault>
        ensures outcome { Onward block self.old result self.new }
        ensures same { OnErr result (self.new ≡ self.old) }
    {
        // Read for the proof: the figure is a number of 64 bits, and no count of a walk within the limits exceeds it.
        let _figure = self.examined.found.figures.cycles;
        self.walk.step(&self.examined.task, block)
    }
}

#[derive(Drop)]
pub enum Stage {
    Unused,
    Loaded(Task),
    Examined(ExaminedTask),
    Walking(WalkedTask),
}

impl Stage {
    ghost use Rattle.bench.specs.View.{stage_view};

    // The stage as a refusal names it.
    pub(crate) fn name(&self) -> StageName
        ensures { result ≡ stage_of (stage_view self.now) }
    {
        match self {
            Stage::Unused => StageName::Unused,
            Stage::Loaded(_) => StageName::Loaded,
            Stage::Examined(_) => StageName::Examined,
            Stage::Walking(_) => StageName::Walking,
        }
    }
}
