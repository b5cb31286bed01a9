// The rules that concern the blocks.
ghost use Rattle.std.specs.Prelude.{ℕ, ◌+◌, ◌*◌, ◌%◌, ◌^◌, ◌<◌, ◌⊎◌, Decides, ◌≢◌};
ghost use Rattle.task.specs.First.{First};
ghost use Rattle.task.specs.Graph.{total_fetches, Leads};
ghost use Rattle.task.specs.Rules.{BreaksUnreached, BreaksTooManyFetches, BreaksAddress};

use records::parts::*;

// The most fetches that a task may have.
const MAX_FETCHES: u32 = 1_024;

// The end of the address space.
const ADDRESS_END: u64 = 16_777_216;

// Whether a lower block leads to block b.
fn is_reached(b: usize, edges: &[Edge]) -> bool
    ensures { Decides result ((p : ℕ) × (p < b) × Leads edges.now p b) }
{
    edges.iter().any(|e| e.to == b && e.from < b)
}

// The first block above 0, of `blocks` blocks, to which no lower block leads.
pub(crate) fn first_unreached(blocks: usize, edges: &[Edge]) -> Option<usize>
    ensures { First (BreaksUnreached blocks edges.now) result }
{
    (1..blocks).find(|b| !is_reached(*b, edges))
}

// Place 0, if the blocks have too many fetches.
pub(crate) fn too_many_fetches(blocks: &[Block]) -> Option<usize>
    requires { total_fetches blocks.now < 2 ^ 32 }
    ensures { First (BreaksTooManyFetches blocks.now) result }
{
    let total: u32 = blocks.iter().map(|block| block.fetches).sum();
    (total > MAX_FETCHES).then_some(0)
}

// Whether the block's address is no multiple of 4, or the block ends past the address space.
fn is_misplaced(block: Block) -> bool
    ensures { Decides result ((block.address % 4 ≢ 0) ⊎ (16777216 < block.address + 4 * block.fetches)) }
{
    block.address % 4 != 0 || u64::from(block.address) + 4 * u64::from(block.fetches) > ADDRESS_END
}

// The first such block.
pub(crate) fn first_misplaced(blocks: &[Block]) -> Option<usize>
    ensures { First (BreaksAddress blocks.now) result }
{
    blocks.iter().position(|block| is_misplaced(*block))
}
