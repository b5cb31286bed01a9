// The search for the greatest charge of a walk within the limits, over any tally.
#![tactic(auto)]

ghost use Rattle.std.specs.Prelude.{◌≡◌, ℕ, ◌^◌, ◌<◌, List, length, Decides, slice_set};
ghost use Rattle.task.specs.Graph.{Within};
ghost use Rattle.task.specs.View.{task_contents};
ghost use Rattle.longest.specs.Search.{forward, backward, greater, plus_both, greater_both, value, arrived, round_of, turned, none_yet, before, whole, stayed, closed, loop_done, start_cells, table, highest};
ghost use Rattle.longest.specs.Sizes.{Sorted, Low, BacksInside, BothSmall, ValuesSmall, Small, Ready};
ghost use Rattle.search.specs.Outcome.{costs_of, CostList, Accepted, Answers};

use longest::{ByRound, Cell};
use records::parts::*;
use tally::Tally;
use task::Task;
use walks::loops::loop_at;

// The greater of two charges, by the tally's order.
fn greater_of<T: Tally>(x: T, y: T) -> T
    ensures { result ≡ greater T.ops x y }
{
    if x.less(&y) { y } else { x }
}

// The greater in each kind of round.
fn greater_both<T: Tally>(x: ByRound<T>, y: ByRound<T>) -> ByRound<T>
    ensures { result ≡ greater_both T.ops x y }
{
    // Both parts are written out, here and below: one function over a closure would need clauses on
    // the closure, and be longer.
    ByRound {
        first: greater_of(x.first, y.first),
        later: greater_of(x.later, y.later),
    }
}

// The sum in each kind of round.
fn plus_both<T: Tally>(x: ByRound<T>, y: ByRound<T>) -> ByRound<T>
    requires { BothSmall T.size (plus_both T.ops x y) }
    ensures { result ≡ plus_both T.ops x y }
{
    ByRound {
        first: x.first.add(y.first),
        later: x.later.add(y.later),
    }
}

// Nothing, in either kind of round.
fn none_yet<T: Tally>() -> ByRound<T>
    ensures { result ≡ none_yet T.ops }
{
    ByRound::both(T::zero())
}

// The greatest charge of a round that has entered block b: to the block's anchor, and from there on.
fn value_at<T: Tally>(work: &[Cell<T>], b: usize) -> ByRound<T>
    requires block { b < length work.now }
    requires low { Low T.ops work.now }
    requires small { BothSmall T.size (value T.ops work.now b) }
    ensures { result ≡ value T.ops work.now b }
{
    let cell = work[b];
    let anchor = work[cell.anchor];
    plus_both(anchor.reach, cell.weight)
}

// Block b is reached with the charge x as well.
fn arrive<T: Tally>(work: &mut [Cell<T>], b: usize, x: ByRound<T>)
    requires { b < length work.old }
    ensures { work.new ≡ arrived T.ops work.old b x }
{
    let mut cell = work[b];
    cell.reach = greater_both(cell.reach, x);
    work[b] = cell;
}

// Whether the edge leads forward inside the loop.
fn is_forward(l: Loop, e: Edge) -> bool
    ensures { result ≡ forward l e }
{
    l.header <= e.from && e.from < e.to && e.to <= l.last
}

// Whether the edge leads back to the loop's header.
fn is_backward(l: Loop, e: Edge) -> bool
    ensures { result ≡ backward l e }
{
    e.to == l.header && l.header <= e.from
}

// One round of a loop, by the edges inside it: they are listed by the blocks that they leave,
// so each block has its value before an edge takes it on.
fn pass_round<T: Tally>(edges: &[Edge], l: Loop, work: &mut [Cell<T>])
    requires low { Low T.ops work.old }
    requires room { l.last < length work.old }
    requires sorted { Sorted edges.now }
    requires small { ValuesSmall T.ops T.size l (round_of T.ops l edges.now work.old) }
    ensures { work.new ≡ round_of T.ops l edges.now work.old }
{
    // That anchors are low and the loop's blocks are held are clauses, here and below: the cells are
    // lent and change, so a struct around them would say it before and after each change as well.
    for e in edges {
        if is_forward(l, *e) {
            let x = value_at(work, e.from);
            arrive(work, e.to, x);
        }
    }
}

// The greatest charge of a round that can go on to another.
fn turn_of<T: Tally>(edges: &[Edge], l: Loop, work: &[Cell<T>]) -> ByRound<T>
    requires low { Low T.ops work.now }
    requires room { l.last < length work.now }
    requires backs { BacksInside l edges.now }
    requires small { ValuesSmall T.ops T.size l work.now }
    ensures { result ≡ turned T.ops l work.now edges.now (none_yet T.ops) }
{
    // A loop: only an edge back leaves a block of the loop, and `filter` and `fold` leave it unproved
    // that its value may be read.
    let mut most = none_yet();
    for e in edges {
        if is_backward(l, *e) {
            most = greater_both(most, value_at(work, e.from));
        }
    }
    most
}

// The greatest charge of a stay of as many rounds as the limit allows, before its last round.
fn before_last<T: Tally>(limit: u32, stay: T, turn: ByRound<T>) -> T
    requires several { 1 < limit }
    requires small { T.size (before T.ops stay turn limit) < 2 ^ 63 }
    ensures { result ≡ before T.ops stay turn limit }
{
    // Limit, stay and turn come one by one, here and below: so do `before`, `whole` and `Small`, which
    // the clauses name.
    stay.add(turn.first.add(turn.later.times(limit - 2)))
}

// The greatest charge of a stay whose last round has the value x: of one round, or of as many
// as the limit allows.
fn whole_stay<T: Tally>(limit: u32, stay: T, turn: ByRound<T>, x: ByRound<T>) -> T
    requires { Small T.ops T.size limit stay turn x }
    ensures { result ≡ whole T.ops limit stay turn x }
{
    let once = stay.add(x.first);
    if limit > 1 {
        greater_of(once, before_last(limit, stay, turn).add(x.later))
    } else {
        once
    }
}

// Block b of a loop is done: it hangs on the loop's header, with the charge of a whole stay.
fn close_block<T: Tally>(l: Loop, stay: T, turn: ByRound<T>, work: &mut [Cell<T>], b: usize)
    requires block { b < length work.old }
    requires low { Low T.ops work.old }
    requires small { Small T.ops T.size l.limit stay turn (value T.ops work.old b) }
    ensures { work.new ≡ slice_set work.old b (stayed T.ops l (whole T.ops l.limit stay turn (value T.ops work.old b))) }
{
    let charge = whole_stay(l.limit, stay, turn, value_at(work, b));
    work[b] = Cell {
        anchor: l.header,
        reach: none_yet(),
        weight: ByRound::both(charge),
    };
}

// The loop is done, from its last block down: the value of a block is read at its anchor,
// which does not stand behind it.
fn close<T: Tally>(l: Loop, stay: T, turn: ByRound<T>, work: &mut [Cell<T>])
    requires low { Low T.ops work.old }
    requires room { l.last < length work.old }
    requires small { (b : ℕ) → Within l b → Small T.ops T.size l.limit stay turn (value T.ops work.old b) }
    ensures { work.new ≡ closed T.ops l stay turn work.old }
{
    for b in (l.header..l.last + 1).rev() {
        close_block(l, stay, turn, work, b);
    }
}

// One loop, when those inside it are done.
fn one_loop<T: Tally>(edges: &[Edge], l: Loop, stay: T, work: &mut [Cell<T>])
    requires { Ready T.ops T.size edges.now l stay work.old }
    ensures { work.new ≡ loop_done T.ops edges.now l stay work.old }
{
    pass_round(edges, l, work);
    let turn = turn_of(edges, l, work);
    close(l, stay, turn, work);
}

// Every block by itself, with its own costs.
fn start<T: Tally>(first: &[T], later: &[T], work: &mut [Cell<T>])
    requires firsts { length first.now ≡ length work.old }
    requires laters { length later.now ≡ length work.old }
    ensures { (ss : List T) → work.new ≡ start_cells T.ops (costs_of T.ops first.now later.now ss) (length work.old) }
{
    // By number, since a cell holds its own number as its anchor.
    for b in 0..work.len() {
        work[b] = Cell {
            anchor: b,
            reach: none_yet(),
            weight: ByRound {
                first: first[b],
                later: later[b],
            },
        };
    }
}

// The greatest charge to any block.
fn highest_of<T: Tally>(work: &[Cell<T>]) -> T
    ensures { result ≡ highest T.ops work.now T.ops.none }
{
    work.iter().fold(T::zero(), |most, cell| greater_of(most, cell.weight.first))
}

// Whether this is a list of n costs, none of them too large.
fn are_costs<T: Tally>(costs: &[T], n: usize) -> bool
    ensures { Decides result (CostList T.size n costs.now) }
{
    costs.len() == n && costs.iter().all(|x| x.fits())
}

// Whether the lists are as long as the task asks, and no cost is too large.
fn accepts<T: Tally>(task: &Task, first: &[T], later: &[T], stays: &[T], work: &[Cell<T>]) -> bool
    ensures { Decides result (Accepted T.size (task_contents task.now) first.now later.now stays.now work.now) }
{
    let blocks = task.record.blocks.len();
    let loops = task.record.loops.len();
    // `&` has no branch, so the proof has one path.
    let costs = are_costs(first, blocks) & are_costs(later, blocks) & are_costs(stays, loops + 1);
    costs & (work.len() == blocks)
}

// The greatest charge to each block, as its weight in a first round: by the loops from the last to
// the first, so that inner loops come before those around them, and the task loop is the last.
fn fill_table<T: Tally>(task: &Task, first: &[T], later: &[T], stays: &[T], work: &mut [Cell<T>])
    requires { Accepted T.size (task_contents task.now) first.now later.now stays.now work.old }
    ensures { work.new ≡ table T.ops (costs_of T.ops first.now later.now stays.now) (task_contents task.now) }
{
    start(first, later, work);
    // By number, since the task loop is in no list: `loop_at` finds a loop by its number.
    for number in (0..stays.len()).rev() {
        one_loop(
            &task.record.edges,
            loop_at(task, number),
            stays[number],
            work,
        );
    }
}

// The greatest charge of a walk within the limits. `first` and `later` are the costs of each
// block in the first and in a later round of its innermost loop, `stays` those of a stay in each
// loop, the task loop first; `work` has a cell for each block, and is left with the greatest
// charge to it. None if a list has another length, or if a cost does not fit.
pub fn greatest_charge<T: Tally>(
    task: &Task,
    first: &[T],
    later: &[T],
    stays: &[T],
    work: &mut [Cell<T>],
) -> Option<T>
    ensures { Answers T.ops T.size (task_contents task.now) first.now later.now stays.now work.old work.new result }
{
    // The lists are lent, and no struct holds them: clauses would name each through the struct's loan
    // as well as its own. The costs of blocks are two lists and not one of pairs, which could not say
    // that one of them is shorter than the other.
    if !accepts(task, first, later, stays, work) {
        return None;
    }
    fill_table(task, first, later, stays, work);
    Some(highest_of(work))
}
