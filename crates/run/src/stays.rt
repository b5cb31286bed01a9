// Where a walk may go on to, and the rounds of its stays.
ghost use Rattle.std.specs.Prelude.{◌≡◌, ◌<◌, ◌≤◌, true, length, replicate, IfOk, Decides};
ghost use Rattle.task.specs.Graph.{Leads};
ghost use Rattle.task.specs.View.{task_contents};
ghost use Rattle.walks.specs.Walk.{all_loops};
ghost use Rattle.run.specs.Run.{next_rounds, entered_rounds};
ghost use Rattle.run.specs.Open.{SpentOf};

use records::parts::*;
use std::alloc::{AllocError, Global};
use task::Task;
use task::loops::within;
use walks::loops::loop_at;

// Whether an edge of the task leads from block p to block b, which is then one of its blocks.
pub(crate) fn is_next(task: &Task, p: usize, b: usize) -> bool
    ensures edge { Decides result (Leads (task_contents task.now).edges p b) }
    ensures block { result ≡ true → b < length (task_contents task.now).blocks }
{
    task.record.edges.contains(&Edge { from: p, to: b })
}

// The rounds of so many loops without a stay.
pub(crate) fn no_stays(heap: Global, loops: usize) -> Result<Vec<u32>, AllocError>
    ensures { IfOk result (λ v. v.items ≡ replicate loops 0) }
{
    vec![in heap; 0u32; loops]
}

// Whether block b heads the loop, and so many rounds are its limit.
fn has_spent(l: Loop, b: usize, rounds: u32) -> bool
    ensures { Decides result ((l.header ≡ b) × (l.limit ≤ rounds)) }
{
    l.header == b && l.limit <= rounds
}

// Whether a loop headed by block b has had its limit of rounds.
pub(crate) fn is_spent(task: &Task, rounds: &[u32], b: usize) -> bool
    ensures { Decides result (SpentOf (all_loops (task_contents task.now)) rounds.now b) }
{
    // By number: the task loop is none of the task's list of loops.
    (0..task.record.loops.len() + 1).any(|i| {
        let rounds = rounds.get(i).copied().unwrap_or(0);
        has_spent(loop_at(task, i), b, rounds)
    })
}

// The rounds of a loop's stay once block b is entered.
fn next_rounds(l: Loop, b: usize, rounds: u32) -> u32
    ensures { (l.header ≡ b → rounds < l.limit) → result ≡ next_rounds l b rounds }
{
    if !within(l, b) {
        0
    } else if b == l.header {
        rounds.saturating_add(1)
    } else {
        rounds
    }
}

// Counts the rounds of each loop's stay as block b is entered.
pub(crate) fn enter_rounds(task: &Task, b: usize, rounds: &mut [u32])
    ensures { length rounds.old ≡ length (all_loops (task_contents task.now)) → (SpentOf (all_loops (task_contents task.now)) rounds.old b → ⊥) → rounds.new ≡ entered_rounds (all_loops (task_contents task.now)) b rounds.old }
{
    // By index: the number picks the loop too, and what `iter_mut` under `enumerate` writes is not known to a proof. Rounds
    // past those of the task's loops belong to none of them, and stay.
    for i in 0..rounds.len().min(task.record.loops.len() + 1) {
        rounds[i] = next_rounds(loop_at(task, i), b, rounds[i]);
    }
}
