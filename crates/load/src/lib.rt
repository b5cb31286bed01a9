// From bytes to a task, or the exact refusal.
#![tactic(auto)]

ghost use Rattle.load.specs.Loading.{Loading, OneReading, ReadsBack};

pub mod refusal;

use crate::refusal::*;
use reader::read;
use std::alloc::Global;
use task::Task;

// The task whose record has the text `bytes`.
pub fn load(heap: Global, bytes: &[u8]) -> Result<Task, Refusal>
    ensures outcome { Loading bytes.now result }
    ensures once { OneReading bytes.now result }
    ensures back { ReadsBack bytes.now result }
{
    let record = read(heap, bytes)?;
    Ok(Task::new(record)?)
}
