// What is settled: one round of a loop, in the lent blocks and edges of a task.
ghost use Rattle.std.specs.Prelude.{◌≡◌, length};
ghost use Rattle.std.specs.List.{list_all};
ghost use Rattle.facts.specs.Space.{placed};
ghost use Rattle.facts.specs.Settling.{leads_on, leads_in};
ghost use Rattle.settle.specs.View.{viewed};
ghost use Rattle.settle.specs.Outcome.{roomy, settleable, starts_below};

use records::parts::{Block, Edge, Loop};
use task::loops::within;

// One round of a loop; the loop of the whole task is settled in the same way.
#[derive(Clone, Copy)]
pub struct Region<'a> {
    // Without the geometry, which settling takes beside it: its type is the kind's.
    pub blocks: &'a [Block],
    pub edges: &'a [Edge],
    pub range: Loop,
}

impl Region<'_> {
    // Whether the edge leads to block b from inside the loop, and begins no round of it.
    pub(crate) fn leads_on(&self, edge: &Edge, b: usize) -> bool
        ensures { result ≡ leads_on self.now.range b edge.now }
    {
        edge.to == b && within(self.range, edge.from) && b != self.range.header
    }

    // Whether the edge leads into the loop from outside.
    pub(crate) fn leads_in(&self, edge: &Edge) -> bool
        ensures { result ≡ leads_in self.now.range edge.now }
    {
        edge.to == self.range.header && !within(self.range, edge.from)
    }

    // Whether every edge starts at one of the blocks.
    pub(crate) fn starts_below(&self) -> bool
        ensures { result ≡ list_all (starts_below (length self.now.blocks.now)) self.now.edges.now }
    {
        self.edges.iter().all(|edge| edge.from < self.blocks.len())
    }

    // Whether settling takes the region, with room for so many states.
    pub(crate) fn is_settleable(&self, room: usize) -> bool
        ensures { result ≡ settleable (viewed self.now) room }
    {
        self.range.header <= self.range.last
            && self.range.last < self.blocks.len()
            && self.has_room(room)
    }

    // Whether the blocks are a task's, with room for so many states.
    pub(crate) fn has_room(&self, room: usize) -> bool
        ensures { result ≡ roomy self.now.blocks.now room }
    {
        self.blocks.len() <= 128
            && self.blocks.len() <= room
            && self.blocks.iter().all(|block| is_placed(block))
    }
}

// Whether the block ends in the address space.
fn is_placed(block: &Block) -> bool
    ensures { result ≡ placed block.now }
{
    u64::from(block.address) + 4 * u64::from(block.fetches) <= 16_777_216
}
