// The rules that concern the edges.
ghost use Rattle.std.specs.Prelude.{ℕ, ◌<◌, length, Decides};
ghost use Rattle.task.specs.First.{First};
ghost use Rattle.task.specs.Graph.{loop_at};
ghost use Rattle.task.specs.Rules.{HeadsAround, EntersAside, BreaksEdgeOrder, BreaksBackEdge, BreaksLoopEntry};

use crate::loops::within;
use records::parts::*;

// The first edge that does not come after all edges before it.
pub(crate) fn first_out_of_order(edges: &[Edge]) -> Option<usize>
    ensures { First (BreaksEdgeOrder edges.now) result }
{
    // The order is transitive, so the edge just before it tells. By number, as the place is that of the later of the two:
    // `position` over `windows(2)` gives the place of the earlier one.
    (1..edges.len()).find(|k| edges[*k - 1] >= edges[*k])
}

// Whether some named loop around block p has the header h.
fn heads_around(loops: &[Loop], h: usize, p: usize) -> bool
    ensures { Decides result (HeadsAround loops.now h p) }
{
    loops.iter().any(|l| l.header == h && within(*l, p))
}

// The first edge back to a block that heads no named loop around its start.
pub(crate) fn first_stray_back_edge(loops: &[Loop], edges: &[Edge]) -> Option<usize>
    ensures { First (BreaksBackEdge loops.now edges.now) result }
{
    edges
        .iter()
        .position(|e| e.to <= e.from && !heads_around(loops, e.to, e.from))
}

// Whether the edge leads into loop l from outside, and not to its header.
fn enters_aside(e: Edge, l: Loop) -> bool
    ensures { Decides result (EntersAside e l) }
{
    within(l, e.to) && !within(l, e.from) && e.to != l.header
}

// Whether it leads so into some named loop.
fn enters_some_aside(e: Edge, loops: &[Loop]) -> bool
    ensures { Decides result ((i : ℕ) × (i < length loops.now) × EntersAside e (loop_at loops.now i)) }
{
    loops.iter().any(|l| enters_aside(e, *l))
}

// The first forward edge into a loop, and not to its header.
pub(crate) fn first_aside_entry(loops: &[Loop], edges: &[Edge]) -> Option<usize>
    ensures { First (BreaksLoopEntry loops.now edges.now) result }
{
    edges
        .iter()
        .position(|e| e.from < e.to && enters_some_aside(*e, loops))
}
