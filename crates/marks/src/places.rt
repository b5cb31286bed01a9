// Where a category stands in the table: by the fetch's row and the loop's level.
ghost use Rattle.std.specs.Prelude.{◌≡◌, take};
ghost use Rattle.task.specs.Graph.{total_fetches};
ghost use Rattle.task.specs.View.{task_contents};
ghost use Rattle.marks.specs.Table.{level_of};

use task::Task;
use task::loops::within;

// The fetches of the blocks before block b: the row of its first fetch.
pub fn fetches_before(task: &Task, b: usize) -> usize
    ensures { result ≡ total_fetches (take b (task_contents task.now).blocks) }
{
    let blocks = task.record.blocks.as_slice();
    let before = &blocks[..b.min(blocks.len())];
    before.iter().map(|block| block.fetches as usize).sum()
}

// The fetches of all blocks.
pub fn total_fetches(task: &Task) -> usize
    ensures { result ≡ total_fetches (task_contents task.now).blocks }
{
    fetches_before(task, task.record.blocks.len())
}

// The level of a loop at block b: the loops around the block that have a higher number.
pub fn level_of(task: &Task, number: usize, b: usize) -> usize
    ensures { result ≡ level_of (task_contents task.now) b number }
{
    let loops = task.record.loops.as_slice().iter();
    loops
        .skip(number)
        .filter(|range| within(**range, b))
        .count()
}
