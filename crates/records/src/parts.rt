// The parts of a task record.

// The shape of the instruction cache.
#[derive(Clone, Copy)]
pub struct Geometry {
    // The bytes of a program line.
    pub line: u32,
    // The slots of the direct-mapped cache.
    pub slots: u32,
}

// What stands before the blocks.
#[derive(Clone, Copy)]
pub struct Header {
    pub geometry: Geometry,
    // The cycles of a fetch that hits.
    pub hit: u32,
    // The further cycles of a fetch that misses.
    pub penalty: u32,
    // The cycles that the task is allowed.
    pub window: u32,
}

// A basic block: consecutive fetches of 4 bytes each.
#[derive(Clone, Copy)]
pub struct Block {
    // The byte address of the first fetch.
    pub address: u32,
    pub fetches: u32,
    // The block's own cycles, besides those of its fetches.
    pub cycles: u32,
}

// A named loop: the blocks from its header to its last block.
#[derive(Clone, Copy)]
pub struct Loop {
    pub header: usize,
    pub last: usize,
    // The most rounds of one stay in the loop.
    pub limit: u32,
}

// A way from the end of one block to the start of another. Edges are ordered by where they start, and then by where
// they lead.
#[derive(Clone, Copy, PartialEq, Eq, PartialOrd, Ord)]
pub struct Edge {
    pub from: usize,
    pub to: usize,
}
