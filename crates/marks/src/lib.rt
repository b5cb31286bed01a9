// The categories of a task, fetch by fetch and level by level.
#![tactic(auto)]

ghost use Rattle.std.specs.Prelude.{◌≡◌, ◌+◌, ◌<◌, ◌≤◌, true, [], length, Some, Decides, slice_index_or};
ghost use Rattle.std.specs.Option.{option_copied};
ghost use Rattle.task.specs.Graph.{loop_at, total_fetches};
ghost use Rattle.task.specs.View.{task_contents};
ghost use Rattle.walks.specs.Walk.{all_loops};
ghost use Rattle.facts.specs.Settling.{region_of, task_states};
ghost use Rattle.settle.specs.View.{viewed};
ghost use Rattle.categories.specs.Category.{fetches_of};
ghost use Rattle.marks.specs.Marked.{task_marks, lent, Fitting, Marked};
ghost use Rattle.marks.specs.Steps.{fitting, stored, Filled, whole_states, round_states, passed_states, Settled, MarkedTo};
ghost use Rattle.marks.specs.Table.{Agrees};

mod alone;
mod gate;
mod place;
pub mod places;

use crate::gate::is_gated;
use crate::place::Place;
use crate::places::*;
use cache_state::CacheState;
use categories::category::Category;
use facts::Facts;
use passed_kind::PassedBlocks;
use settle::region::Region;
use settle::{entry_state, settle};
use task::Task;
use walks::loops::loop_at;

// Stores a category at its place.
fn store(table: &mut [[Category; 8]], row: usize, level: usize, category: Category)
    requires row_in_bounds { row < length table.old }
    requires level_bound { level < 8 }
    ensures table { table.new ≡ stored table.old row level category }
    ensures row { length (slice_index_or table.old row []) ≡ 8 }
{
    table[row][level] = category;
}

// Stores the categories of the block's fetches at the loop, in the rows from its first on.
fn mark_block<K: CacheState>(
    place: &Place,
    settled: &K,
    first: Option<&K>,
    row: usize,
    level: usize,
    table: &mut [[Category; 8]],
)
    requires rows { row + fetches_of (task_contents place.now.task.now) place.now.b ≤ length table.old }
    requires level { level < 8 }
    ensures { Filled table.old table.new row (fetches_of (task_contents place.now.task.now) place.now.b) level (fitting K.kind K.fetched (task_contents place.now.task.now) place.now.range place.now.b settled.now (option_copied first.entry)) }
{
    // A loop by number: the row and the line of each fetch are worked out from it.
    for fetch in 0..place.task.record.blocks[place.b].fetches {
        let category = place.category_of(fetch, settled, first);
        store(table, row + fetch as usize, level, category);
    }
}

// What is settled for the loop of this number: number 0 is the whole task.
fn region(task: &Task, number: usize) -> Region<'_>
    requires { number < length (all_loops (task_contents task.now)) }
    ensures { viewed result ≡ region_of (task_contents task.now).blocks (task_contents task.now).edges (loop_at (all_loops (task_contents task.now)) number) }
{
    Region {
        blocks: task.record.blocks.as_slice(),
        edges: task.record.edges.as_slice(),
        range: loop_at(task, number),
    }
}

// Settles the whole task at the front of `states`, and answers with the passes.
fn settle_task<G: Copy, K: Facts<G>>(task: &Task, states: &mut [K], geometry: G) -> Option<u32>
    requires taken { K.takes geometry ≡ true }
    requires room { length (task_contents task.now).blocks ≤ length states.old }
    ensures passes { result ≡ Some (task_states (K.kind geometry) (task_contents task.now)).1 }
    ensures settled { Settled (task_contents task.now) states.new (task_states (K.kind geometry) (task_contents task.now)).0 }
{
    settle(states, &region(task, 0), K::open(geometry), geometry)
}

// A task with the settled states of the whole of it, its kind's and those of passed blocks.
#[derive(Drop)]
struct SettledTask<'a, K: CacheState> {
    task: &'a Task,
    states: &'a [K],
    passed: &'a [PassedBlocks],

    ghost whole: { Settled (task_contents task.now) states.now (whole_states K.kind (task_contents task.now)) },
    ghost walks: { Settled (task_contents task.now) passed.now (passed_states (task_contents task.now)) },
}

impl<K: CacheState> SettledTask<'_, K> {
    // Settles a loop's first round at the front of `first`.
    fn settle_first(&self, number: usize, first: &mut [K])
        requires number { number < length (all_loops (task_contents self.now.task.now)) }
        requires room { length (task_contents self.now.task.now).blocks ≤ length first.old }
        ensures { Settled (task_contents self.now.task.now) first.new (round_states K.kind (task_contents self.now.task.now) number) }
    {
        // That the task has the loop is a clause here and in `mark_loop`, since the number is a parameter.
        let region = region(self.task, number);
        let geometry = self.task.record.header.geometry;
        if let Some(entry) = entry_state(self.states, &region, geometry) {
            settle(first, &region, entry, geometry);
        }
    }

    // Marks the fetches of a loop's blocks, the blocks of loops inside it included, when those of the loops
    // before it are marked. The states of the loop's first round are settled.
    fn mark_loop(&self, number: usize, first: &[K], table: &mut [[Category; 8]])
        requires number { number < length (all_loops (task_contents self.now.task.now)) }
        requires rows { length table.old ≡ total_fetches (task_contents self.now.task.now).blocks }
        requires round { Settled (task_contents self.now.task.now) first.now (round_states K.kind (task_contents self.now.task.now) number) }
        requires before { MarkedTo (task_contents self.now.task.now) (task_marks K.kind K.fetched (task_contents self.now.task.now)) number 0 table.old }
        ensures { MarkedTo (task_contents self.now.task.now) (task_marks K.kind K.fetched (task_contents self.now.task.now)) (number + 1) 0 table.new }
    {
        let task = self.task;
        let settled = self.states;
        let range = loop_at(task, number);
        // By number: it picks the row, the level and the states of each block. An open range, as in `pass` of
        // `settle`: the proof answers for one end of the loop.
        for b in range.header..range.last + 1 {
            let place = Place { task, range, b };
            let first = is_gated(&place, self.passed).then_some(&first[b]);
            let row = fetches_before(task, b);
            let level = level_of(task, number, b);
            mark_block(&place, &settled[b], first, row, level, table);
        }
    }

    // Marks the fetches of every loop; `first` is for the states of one loop's first round after the other.
    fn mark_loops(&self, first: &mut [K], table: &mut [[Category; 8]])
        requires room { length (task_contents self.now.task.now).blocks ≤ length first.old }
        requires rows { length table.old ≡ total_fetches (task_contents self.now.task.now).blocks }
        ensures { Agrees (task_contents self.now.task.now) table.new (task_marks K.kind K.fetched (task_contents self.now.task.now)) }
    {
        // By number: the task loop is none of the task's list of loops.
        for number in 0..self.task.record.loops.len() + 1 {
            self.settle_first(number, first);
            self.mark_loop(number, first, table);
        }
    }
}

// Whether lists of these lengths have two states and a set of passed blocks for each block, and just a
// row for each fetch.
fn lists_fit(task: &Task, states: usize, passed: usize, rows: usize) -> bool
    ensures { Decides result (Fitting (task_contents task.now) states passed rows) }
{
    let blocks = task.record.blocks.len();
    blocks <= states / 2 && blocks <= passed && rows == total_fetches(task)
}

// Marks every fetch of the task at every loop around its block, and answers with the passes that the
// kind's states of the whole task take. It works in the lent lists: two states and a set of passed
// blocks for each block, and a row of categories for each fetch, innermost loop first. Refused, with
// nothing changed, where the lists do not fit.
pub fn mark<K: CacheState>(
    task: &Task,
    states: &mut [K],
    passed: &mut [PassedBlocks],
    table: &mut [[Category; 8]],
) -> Option<u32>
    ensures { Marked K.kind K.fetched (task_contents task.now) (lent states.old passed.old table.old) result (lent states.new passed.new table.new) }
{
    // Lists side by side, and two states for each block in one: they are lent, and marking allocates nothing.
    if !lists_fit(task, states.len(), passed.len(), table.len()) {
        return None;
    }
    let blocks = task.record.blocks.len();
    settle_task(task, passed, blocks as u32);
    let (settled, first) = states.split_at_mut(blocks);
    let passes = settle_task(task, settled, task.record.header.geometry);
    let whole = SettledTask {
        // Lent again, as short as the states are.
        task: &*task,
        states: &*settled,
        passed: &*passed,
    };
    whole.mark_loops(first, table);
    passes
}
