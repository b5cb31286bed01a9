// A second bench, written from the rules alone: what it refuses, where a walk stands and what it counts.
use crate::plan::*;
use crate::samples::*;
use crate::walk::*;
use cache_state::lines::EMPTY;
use std::alloc::{AllocError, Global};
use std::iter;
use std::test::*;

// Accepted, or the number and the place of a refusal, as docs/REFUSALS.md has them and not the crates' own types.
pub type Verdict = Result<(), (u32, usize)>;

// A call on a bench.
#[derive(Clone, Copy)]
pub enum Call {
    Load(Record),
    // A working list of so many states.
    Examine(Kind, usize),
    // A starting cache of so many slots, with the lines of a seed.
    Start(usize, usize),
    Step(usize),
    Close,
    // A buffer of so many bytes.
    Write(usize),
    Figure,
    Ask(usize, usize, usize),
    // A block, and a buffer of so many bytes.
    List(usize, usize),
    Stand,
}

// The stages, by their numbers.
#[derive(Clone, Copy, PartialEq, Eq, PartialOrd, Ord)]
enum Stage {
    Unused,
    Loaded,
    Examined,
    Walking,
}

// A starting cache: three bits of the seed for each slot, all ones for an empty one.
pub fn starting_cache(heap: Global, slots: usize, seed: usize) -> Result<Vec<u32>, AllocError> {
    iter::successors(Some(seed), |lines| Some(*lines / 8))
        .take(slots)
        .map(|lines| match lines % 8 {
            7 => EMPTY,
            line => line as u32,
        })
        .collect(heap)
}

#[derive(Drop)]
pub struct Model {
    stage: Stage,
    // Of the latest record, examination and walk, and no part of the stage: calls are drawn by lot from the plan and
    // the walk in every stage.
    sample: Sample,
    kind: Kind,
    pub plan: Plan,
    pub walk: Walk,
}

impl Model {
    pub fn new(heap: Global) -> Result<Model, Fail> {
        // No record is loaded: every number of an empty text reads as 0.
        let plan = Plan::read(heap, "")?;
        let walk = Walk::new(heap, &plan, &[])?;
        Ok(Model {
            stage: Stage::Unused,
            sample: Record::SingleLoop.sample(),
            kind: Kind::Slot,
            plan,
            walk,
        })
    }

    // A call that is taken from the first stage to the last.
    fn admit(&self, first: Stage, last: Stage) -> Verdict {
        if self.stage < first || last < self.stage {
            return Err((15, self.stage as usize));
        }
        Ok(())
    }

    // Takes a call. What it needs of memory is had before it is judged.
    pub fn answer(&mut self, heap: Global, call: Call) -> Result<Verdict, Fail> {
        Ok(match call {
            Call::Load(record) => {
                let sample = record.sample();
                let plan = Plan::read(heap, sample.text)?;
                self.load(sample, plan)
            }
            Call::Examine(kind, states) => self.examine(kind, states),
            Call::Start(slots, seed) => {
                let cache = starting_cache(heap, slots, seed)?;
                let walk = Walk::new(heap, &self.plan, cache.as_slice())?;
                self.start(slots, walk)
            }
            Call::Step(block) => self.step(block),
            Call::Close => self.close(),
            Call::Write(room) => self.write(room),
            Call::Figure => self.figure(),
            Call::Ask(block, fetch, level) => self.ask(block, fetch, level),
            Call::List(block, room) => self.list(block, room),
            Call::Stand => self.stand(),
        })
    }

    fn load(&mut self, sample: Sample, plan: Plan) -> Verdict {
        self.admit(Stage::Unused, Stage::Examined)?;
        sample.verdict?;
        self.plan = plan;
        self.sample = sample;
        self.stage = Stage::Loaded;
        Ok(())
    }

    fn examine(&mut self, kind: Kind, states: usize) -> Verdict {
        self.admit(Stage::Loaded, Stage::Examined)?;
        let needed = self.plan.blocks.len().saturating_mul(2);
        if states < needed {
            return Err((20, needed));
        }
        self.kind = kind;
        self.stage = Stage::Examined;
        Ok(())
    }

    // The walk is one from a cache of so many slots.
    fn start(&mut self, slots: usize, walk: Walk) -> Verdict {
        self.admit(Stage::Examined, Stage::Examined)?;
        if slots != self.plan.slots {
            return Err((16, self.plan.slots));
        }
        self.walk = walk;
        self.walk.enter(&self.plan, 0);
        self.stage = Stage::Walking;
        Ok(())
    }

    fn step(&mut self, block: usize) -> Verdict {
        self.admit(Stage::Walking, Stage::Walking)?;
        if !self.walk.is_next(&self.plan, block) {
            return Err((17, block));
        }
        if self.walk.is_spent(&self.plan, block) {
            return Err((18, block));
        }
        self.walk.enter(&self.plan, block);
        Ok(())
    }

    fn close(&mut self) -> Verdict {
        self.admit(Stage::Walking, Stage::Walking)?;
        self.stage = Stage::Examined;
        Ok(())
    }

    pub fn stand(&self) -> Verdict {
        self.admit(Stage::Walking, Stage::Walking)
    }

    fn write(&self, room: usize) -> Verdict {
        self.admit(Stage::Loaded, Stage::Walking)?;
        if room < self.sample.text.len() {
            return Err((20, self.sample.text.len()));
        }
        Ok(())
    }

    pub fn figure(&self) -> Verdict {
        self.admit(Stage::Examined, Stage::Walking)
    }

    fn ask(&self, block: usize, fetch: usize, level: usize) -> Verdict {
        self.admit(Stage::Examined, Stage::Walking)?;
        let row = self.plan.blocks.get(block).ok_or((19, 0))?;
        if fetch >= row.fetches {
            return Err((19, 1));
        }
        if level >= self.plan.levels(block) {
            return Err((19, 2));
        }
        Ok(())
    }

    fn list(&self, block: usize, room: usize) -> Verdict {
        self.admit(Stage::Examined, Stage::Walking)?;
        if block >= self.plan.blocks.len() {
            return Err((19, 0));
        }
        let needed = self.found().listed(block).len();
        if room < needed {
            return Err((20, needed));
        }
        Ok(())
    }

    // What a call to write lays out.
    pub fn written(&self) -> &'static [u8] {
        self.sample.text.as_bytes()
    }

    // What the examination found.
    pub fn found(&self) -> Found {
        match self.kind {
            Kind::Slot => self.sample.by_slot,
            Kind::Last => self.sample.by_last,
        }
    }
}
