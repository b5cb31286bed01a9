// The examination of a task with a kind of cache state.
#![tactic(auto)]

ghost use Rattle.std.specs.Prelude.{◌≡◌, ◌*◌, ◌≤◌, length, MatchResult};
ghost use Rattle.task.specs.View.{task_contents};
ghost use Rattle.examine.specs.declared.examination.ExamineError.TheVariants.{NoMemory};
ghost use Rattle.examine.specs.Examined.{Accepted, Examined};

pub mod examination;

use crate::examination::*;
use cache_state::CacheState;
use categories::category::Category;
use facts::Facts;
use marks::mark;
use marks::places::total_fetches;
use passed_kind::PassedBlocks;
use std::alloc::Global;
use task::Task;

// Marks the task and works out its figures. Where memory runs out the working list may hold anything.
fn mark_and_price<K: CacheState>(
    heap: Global,
    task: &Task,
    work: &mut [K],
) -> Result<Examination, ExamineError>
    requires { 2 * length (task_contents task.now).blocks ≤ length work.old }
    ensures { MatchResult result (Accepted K.kind K.fetched (task_contents task.now)) (λ e. e ≡ NoMemory) }
{
    let mut passed = vec![in heap; PassedBlocks { set: None }; task.record.blocks.len()]?;
    let mut table = vec![in heap; [Category::AlwaysMiss; 8]; total_fetches(task)]?;
    let passes = mark(task, work, &mut passed, &mut table).unwrap();
    // The table has a row for each fetch, so only memory can be short.
    let figures = figure::figures(heap, task, &table).map_err(|_| ExamineError::NoMemory)?;
    Ok(Examination {
        passes,
        figures,
        table,
    })
}

// Marks the task with the kind `K` and works out its figures. The working list has to have two states for each block.
pub fn examine<K: CacheState>(
    heap: Global,
    task: &Task,
    work: &mut [K],
) -> Result<Examination, ExamineError>
    ensures { Examined K.kind K.fetched (task_contents task.now) work.old result work.new }
{
    let needed = 2 * task.record.blocks.len();
    if work.len() < needed {
        return Err(ExamineError::TooShort(needed));
    }
    // A refused call leaves the working list as it was.
    let before = Vec::from_slice(heap, work)?;
    let found = mark_and_price(heap, task, work);
    if found.is_err() {
        work.copy_from_slice(&before);
    }
    found
}
