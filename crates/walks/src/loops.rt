// A task's loops by number: the task loop is number 0, and the named loops follow.
ghost use Rattle.std.specs.Prelude.{◌≡◌, ◌<◌, ◌≤◌, length};
ghost use Rattle.task.specs.Graph.{loop_at};
ghost use Rattle.task.specs.View.{task_contents};
ghost use Rattle.walks.specs.Walk.{task_loop, all_loops};

use records::parts::*;
use task::Task;

// The loop of the whole task.
pub fn task_loop(task: &Task) -> Loop
    ensures { result ≡ task_loop (task_contents task.now) }
{
    Loop {
        header: 0,
        last: task.record.blocks.len() - 1,
        limit: 1,
    }
}

// The loop of this number, which is a range of the task's blocks. A number past the last loop's has no
// loop: block 0 and no rounds.
pub fn loop_at(task: &Task, number: usize) -> Loop
    ensures range { result ≡ loop_at (all_loops (task_contents task.now)) number }
    ensures blocks { number < length (all_loops (task_contents task.now)) → (result.header ≤ result.last) × (result.last < length (task_contents task.now).blocks) }
{
    // No Option: `loop_at` of a list answers with this loop past its end, so that no contract needs a case for it.
    let Some(named) = number.checked_sub(1) else {
        return task_loop(task);
    };
    task.record.loops.get(named).copied().unwrap_or(Loop {
        header: 0,
        last: 0,
        limit: 0,
    })
}
