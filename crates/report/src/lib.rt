// From bytes to the report of a task, or the exact refusal.
#![tactic(auto)]

ghost use Rattle.std.specs.Prelude.{◌≡◌, IfOk, MatchResult};
ghost use Rattle.task.specs.View.{task_contents};
ghost use Rattle.slot_kind.specs.Slots.{slot_kind, slots_fetched};
ghost use Rattle.examine.specs.declared.examination.ExamineError.TheVariants.{NoMemory};
ghost use Rattle.examine.specs.Findings.{shown};
ghost use Rattle.examine.specs.Examined.{Accepted};
ghost use Rattle.listing.specs.Text.{report_text};
ghost use Rattle.report.specs.Reported.{Reported, Worth};

pub mod worked;

use examine::examination::*;
use examine::examine;
use listing::lay_report;
use load::load;
use load::refusal::Refusal;
use slot_kind::SlotState;
use std::alloc::{AllocError, Global};
use task::Task;

// The report of the task whose record has the text `bytes`.
pub fn report(heap: Global, bytes: &[u8]) -> Result<Vec<u8>, Refusal>
    ensures outcome { Reported bytes.now result }
    ensures worth { Worth bytes.now result }
{
    let task = load(heap, bytes)?;
    // Only memory can be short from here on, and a record's refusal has no other word for either error.
    let found = examined(heap, &task).map_err(|_| Refusal::NoMemory)?;
    written(heap, &task, &found).map_err(|_| Refusal::NoMemory)
}

// What is found of the task with the slot kind. The working list has two states for each block, so only memory can be short.
fn examined(heap: Global, task: &Task) -> Result<Examination, ExamineError>
    ensures { MatchResult result (Accepted slot_kind slots_fetched (task_contents task.now)) (λ e. e ≡ NoMemory) }
{
    // What the states are at first does not matter: the examination writes over them.
    let mut work = vec![in heap; SlotState { lines: None }; 2 * task.record.blocks.len()]?;
    examine(heap, task, &mut work)
}

// The report of what was found, in a list of just its length.
fn written(heap: Global, task: &Task, found: &Examination) -> Result<Vec<u8>, AllocError>
    ensures { IfOk result (λ v. v.items ≡ report_text (task_contents task.now) (shown (task_contents task.now) found.now)) }
{
    // Laid into an empty buffer, the text only tells where it ends.
    let length = lay_report(&mut [], 0, task, found);
    let mut text = vec![in heap; 0u8; length]?;
    lay_report(&mut text, 0, task, found);
    Ok(text)
}
