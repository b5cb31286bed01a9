// What can be wrong with a task's graph, and where.
ghost use Rattle.task.specs.Fault.{number};

use syntax::fault::{Fault, Rule};

// The rules that a record in range is held to, in this order, with the numbers of their refusals.
#[derive(Clone, Copy, PartialEq, Eq, Debug)]
pub enum GraphRule {
    // A loop ends before its header, its header does not come after those of the loops
    // before it, or it overlaps one of them and neither is inside the other.
    LoopOrder = 5,
    // A block has more than 8 levels.
    Depth = 6,
    // The limits around a block multiply to more than 1,000,000.
    LimitProduct = 7,
    // An edge does not come after the edges before it.
    EdgeOrder = 8,
    // An edge goes back to a block that heads no named loop around its start.
    BackEdge = 9,
    // An edge goes forward into a loop, and not to its header.
    LoopEntry = 10,
    // No lower block leads to a block above 0.
    Unreached = 11,
    // A loop may have several rounds, and no edge goes back to its header.
    NoBackEdge = 12,
    // The blocks have more than 1,024 fetches.
    TooManyFetches = 13,
    // A block's address is no multiple of 4, or the block ends past the address space.
    Address = 14,
}

// The loop, block or edge that breaks a rule; 0 for the sum of the fetches.
pub type GraphFault = Fault<GraphRule>;

impl Rule for GraphRule {
    ghost number = { number };

    fn number(&self) -> u32 {
        *self as u32
    }
}
