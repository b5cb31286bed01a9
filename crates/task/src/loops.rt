// The rules that concern the named loops.
ghost use Rattle.std.specs.Prelude.{◌≡◌, ◌<◌, length, Decides};
ghost use Rattle.task.specs.First.{First};
ghost use Rattle.task.specs.Graph.{Within, within, levels, limits};
ghost use Rattle.task.specs.Rules.{Inside, Cross, Disordered, Repeats, BreaksLoopOrder, BreaksDepth, BreaksLimitProduct, BreaksNoBackEdge};

use records::parts::*;

// The most levels that a block may have, the whole task's included.
const MAX_LEVELS: usize = 8;

// The most that the limits around a block may multiply to.
const MAX_LIMIT_PRODUCT: u64 = 1_000_000;

// Whether all of loop l is in loop m.
fn inside(l: Loop, m: Loop) -> bool
    ensures { Decides result (Inside l m) }
{
    m.header <= l.header && l.last <= m.last
}

// Whether they share a block and neither is inside the other.
fn cross(l: Loop, m: Loop) -> bool
    ensures { Decides result (Cross l m) }
{
    l.header <= m.last && m.header <= l.last && !inside(l, m) && !inside(m, l)
}

// Whether loop k does not fit behind the loops before it.
fn disordered(loops: &[Loop], k: usize) -> bool
    requires { k < length loops.now }
    ensures { Decides result (Disordered loops.now k) }
{
    let later = loops[k];
    later.last < later.header
        || loops[..k].iter().any(|earlier| later.header <= earlier.header || cross(*earlier, later))
}

// The first loop that does not fit behind those before it.
pub(crate) fn first_disordered(loops: &[Loop]) -> Option<usize>
    ensures { First (BreaksLoopOrder loops.now) result }
{
    // By number: a loop is held against all loops before it.
    (0..loops.len()).find(|k| disordered(loops, *k))
}

// Whether block b is in loop l.
pub fn within(l: Loop, b: usize) -> bool
    ensures test { result ≡ within l b }
    ensures fact { Decides result (Within l b) }
{
    (l.header..=l.last).contains(&b)
}

// The levels of block b: the named loops around it and the whole task.
fn levels(loops: &[Loop], b: usize) -> usize
    ensures { result ≡ levels loops.now b }
{
    1 + loops.iter().filter(|l| within(**l, b)).count()
}

// The first of `blocks` blocks that has more than 8 levels.
pub(crate) fn first_too_deep(blocks: usize, loops: &[Loop]) -> Option<usize>
    ensures { First (BreaksDepth blocks loops.now) result }
{
    (0..blocks).find(|b| levels(loops, *b) > MAX_LEVELS)
}

// Whether the limits around block b multiply to more than 1,000,000.
fn over_limit(loops: &[Loop], b: usize) -> bool
    ensures { Decides result (1000000 < limits loops.now b) }
{
    // A product that would leave 64 bits stops at `u64::MAX`, which is more too.
    let product = loops
        .iter()
        .filter(|l| within(**l, b))
        .map(|l| u64::from(l.limit))
        .fold(1u64, |product, limit| product.saturating_mul(limit));
    product > MAX_LIMIT_PRODUCT
}

// The first of `blocks` blocks whose limits multiply to more than 1,000,000.
pub(crate) fn first_over_limit(blocks: usize, loops: &[Loop]) -> Option<usize>
    ensures { First (BreaksLimitProduct blocks loops.now) result }
{
    (0..blocks).find(|b| over_limit(loops, *b))
}

// Whether an edge leads back from inside loop l to its header.
fn repeats(l: Loop, edges: &[Edge]) -> bool
    ensures { Decides result (Repeats edges.now l) }
{
    edges.iter().any(|e| e.to == l.header && within(l, e.from))
}

// Whether loop l may have several rounds, and no edge leads back to its header.
fn lacks_back_edge(l: Loop, edges: &[Edge]) -> bool
    ensures { Decides result ((1 < l.limit) × (Repeats edges.now l → ⊥)) }
{
    l.limit > 1 && !repeats(l, edges)
}

// The first loop that lacks an edge back.
pub(crate) fn first_without_back_edge(loops: &[Loop], edges: &[Edge]) -> Option<usize>
    ensures { First (BreaksNoBackEdge loops.now edges.now) result }
{
    loops.iter().position(|l| lacks_back_edge(*l, edges))
}
