// An open walk: where it stands and what it has counted.
use crate::plan::*;
use std::alloc::{AllocError, Global};

#[derive(Drop)]
pub struct Walk {
    pub block: usize,
    pub cycles: usize,
    pub misses: usize,
    pub fetches: usize,
    // The line in each slot.
    cache: Vec<usize>,
    // For each loop of the plan, the arrivals at its header in the latest stay.
    rounds: Vec<usize>,
}

impl Walk {
    // Before the first block, from this cache.
    pub fn new(heap: Global, plan: &Plan, cache: &[u32]) -> Result<Walk, AllocError> {
        Ok(Walk {
            block: 0,
            cycles: 0,
            misses: 0,
            fetches: 0,
            cache: cache.iter().map(|line| *line as usize).collect(heap)?,
            rounds: vec![in heap; 0; plan.loops.len()]?,
        })
    }

    fn fetch(&mut self, plan: &Plan, address: usize) {
        let line = address.checked_div(plan.line).unwrap_or(0);
        let slot = line.checked_rem(plan.slots).unwrap_or(0);
        self.fetches = self.fetches.saturating_add(1);
        self.cycles = self.cycles.saturating_add(plan.hit);
        if let Some(held) = self.cache.get_mut(slot)
            && *held != line
        {
            *held = line;
            self.misses = self.misses.saturating_add(1);
            self.cycles = self.cycles.saturating_add(plan.penalty);
        }
    }

    pub fn enter(&mut self, plan: &Plan, block: usize) {
        for (l, rounds) in plan.loops.iter().zip(self.rounds.iter_mut()) {
            if l.header == block {
                let stays = l.is_around(self.block);
                *rounds = if stays { rounds.saturating_add(1) } else { 1 };
            }
        }
        self.block = block;
        if let Some(entered) = plan.blocks.get(block) {
            self.cycles = self.cycles.saturating_add(entered.cycles);
            for fetch in 0..entered.fetches {
                self.fetch(
                    plan,
                    entered.address.saturating_add(fetch.saturating_mul(4)),
                );
            }
        }
    }

    // Whether the walk is in the loop of this header, and has had its rounds.
    pub fn is_spent(&self, plan: &Plan, block: usize) -> bool {
        plan.loops.iter().zip(self.rounds.iter()).any(|(l, rounds)| {
            l.header == block && l.is_around(self.block) && *rounds >= l.limit
        })
    }

    pub fn is_next(&self, plan: &Plan, block: usize) -> bool {
        plan.edges
            .iter()
            .any(|edge| edge.from == self.block && edge.to == block)
    }
}
