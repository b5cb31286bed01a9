// The plain run of a walk: what the cache and the counts come to, from the task and the starting cache alone. An
// open walk is such a run that goes on block by block.
#![tactic(auto)]

ghost use Rattle.std.specs.Prelude.{◌≡◌, ◌<◌, length, IfOk, OnErr};
ghost use Rattle.task.specs.View.{task_contents};
ghost use Rattle.run.specs.Run.{entered, fresh};
ghost use Rattle.run.specs.Open.{run_of, Spent, Fits, Stepped};

pub mod fetches;
mod stays;

use crate::fetches::*;
use crate::stays::*;
use std::alloc::{AllocError, Global};
use task::Task;

// An open walk: where it stands, the rounds of its stays, the cache, and what it has counted.
#[derive(Drop)]
pub struct OpenWalk {
    pub block: usize,
    // The program line that each slot of the cache holds, or EMPTY. The task, which sets how many slots and loops there
    // are, is no part of the walk, so that the lengths of the two lists are no fact of it.
    pub cache: Vec<u32>,
    // The rounds of the current stay in each loop, the task loop first; 0 without a stay, which is a count and no flag.
    pub rounds: Vec<u32>,
    // The counts are parts of the walk; only the answer on where it stands gives them again.
    pub cycles: u64,
    pub misses: u64,
    pub fetches: u64,
}

// Why a walk cannot go on to a block.
#[derive(Clone, Copy)]
pub enum StepFault {
    // No edge leads to the block, which is named.
    NoEdge(usize),
    // The stay in the loop of this header has had its limit of rounds.
    LimitSpent(usize),
}

impl OpenWalk {
    // Opens a walk at block 0 from a starting cache.
    pub fn open(heap: Global, task: &Task, cache: &[u32]) -> Result<OpenWalk, AllocError>
        ensures { IfOk result (λ w. run_of w ≡ entered (task_contents task.now) 0 (fresh (task_contents task.now) cache.now)) }
    {
        let mut walk = OpenWalk {
            block: 0,
            cache: Vec::from_slice(heap, cache)?,
            rounds: no_stays(heap, task.record.loops.len() + 1)?,
            cycles: 0,
            misses: 0,
            fetches: 0,
        };
        walk.enter(task, 0);
        Ok(walk)
    }

    // Goes on to a block, or says why not and stays as it is.
    pub fn step(&mut self, task: &Task, block: usize) -> Result<(), StepFault>
        ensures goes { Stepped (task_contents task.now) (run_of self.old) block result (run_of self.new) }
        ensures same { OnErr result (self.new ≡ self.old) }
    {
        if !is_next(task, self.block, block) {
            return Err(StepFault::NoEdge(block));
        }
        if is_spent(task, self.rounds.as_slice(), block) {
            return Err(StepFault::LimitSpent(block));
        }
        self.enter(task, block);
        Ok(())
    }

    // Enters a block and makes its fetches.
    fn enter(&mut self, task: &Task, block: usize)
        requires { block < length (task_contents task.now).blocks }
        ensures { Fits (task_contents task.now) block (run_of self.old) → (Spent (task_contents task.now) (run_of self.old) block → ⊥) → run_of self.new ≡ entered (task_contents task.now) block (run_of self.old) }
    {
        let header = task.record.header;
        let entered = task.record.blocks[block];
        let misses = fetch_block(&entered, header.geometry, &mut self.cache);
        enter_rounds(task, block, &mut self.rounds);
        self.block = block;
        // Only of a walk within the limits is it known that the counts stay small.
        self.cycles = self
            .cycles
            .saturating_add(entry_cycles(header, entered, misses));
        self.misses = self.misses.saturating_add(u64::from(misses));
        self.fetches = self.fetches.saturating_add(u64::from(entered.fetches));
    }
}
