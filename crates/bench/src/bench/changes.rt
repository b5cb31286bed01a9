// The calls that change a bench.
ghost use Rattle.std.specs.Prelude.{◌≡◌, OnErr};
ghost use Rattle.calls.specs.Outcomes.{LoadCall, ExamineCall, StartCall, StepCall, CloseCall};
ghost use Rattle.bench.specs.View.{view};

use super::Bench;
use crate::stage::*;
use cache_state::CacheState;
use calls::call::Call;
use calls::fault::BenchFault;
use calls::refusal::*;
use run::OpenWalk;

impl Bench {
    // Reads a record, and forgets the earlier task.
    pub fn load(&mut self, text: &[u8]) -> Result<(), Refusal>
        ensures outcome { LoadCall text.now (view self.old) result (view self.new) }
        ensures same { OnErr result (self.new ≡ self.old) }
    {
        self.admit(Call::Load)?;
        let task = load::load(self.heap, text)?;
        self.stage = Stage::Loaded(task);
        Ok(())
    }

    // Examines the task with the kind `K` of cache state, in a working list of two states for each block, and answers the
    // passes.
    pub fn examine<K: CacheState>(&mut self, work: &mut [K]) -> Result<u32, Refusal>
        ensures outcome { ExamineCall K.kind K.fetched work.old (view self.old) result work.new (view self.new) }
        ensures same { OnErr result (self.new ≡ self.old) }
    {
        self.admit(Call::Examine)?;
        let found = examine::examine(self.heap, self.task(), work)?;
        let passes = found.passes;
        let task = self.take_task();
        let examined = ExaminedTask { task, found };
        self.stage = Stage::Examined(examined);
        Ok(passes)
    }

    // Opens a walk at block 0 from a starting cache: a program line, or EMPTY, for each slot.
    pub fn start(&mut self, cache: &[u32]) -> Result<(), Refusal>
        ensures outcome { StartCall cache.now (view self.old) result (view self.new) }
        ensures same { OnErr result (self.new ≡ self.old) }
    {
        self.admit(Call::Start)?;
        let task = self.task();
        let slots = task.record.header.geometry.slots as usize;
        if cache.len() != slots {
            return Err(Refusal::Bench(BenchFault::StartLength(slots)));
        }
        let walk = OpenWalk::open(self.heap, task, cache)?;
        let examined = self.take_examined();
        let walked = WalkedTask { examined, walk };
        self.stage = Stage::Walking(walked);
        Ok(())
    }

    // Adds a block to the open walk.
    pub fn step(&mut self, block: usize) -> Result<(), Refusal>
        ensures outcome { StepCall block (view self.old) result (view self.new) }
        ensures same { OnErr result (self.new ≡ self.old) }
    {
        self.admit(Call::Step)?;
        // Only a walking bench takes a step. No function hands the walk out by `&mut`: its contract would need a clause
        // on the loan.
        let Stage::Walking(walked) = &mut self.stage else {
            unreachable()
        };
        walked.step(block)?;
        Ok(())
    }

    // Ends the open walk.
    pub fn close(&mut self) -> Result<(), Refusal>
        ensures outcome { CloseCall (view self.old) result (view self.new) }
        ensures same { OnErr result (self.new ≡ self.old) }
    {
        self.admit(Call::Close)?;
        self.stage = Stage::Examined(self.take_examined());
        Ok(())
    }
}
