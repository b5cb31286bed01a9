// Loads every stored record and compares what comes of it with what is stored: the same refusal, or the same bytes
// written back and the same findings of an examination with each kind of cache state.
#![tactic(auto)]

use cache_state::CacheState;
use examine::examine;
use last_line_kind::LastLine;
use listing::lay_report;
use load::load;
use slot_kind::SlotState;
use std::fs;
use task::Task;

// How a record came out.
#[derive(Clone, Copy, PartialEq, Eq)]
enum Outcome {
    WrittenBack,
    Examined,
    Refused,
    Wrong,
}

// Whether the task's record is written back as `record`.
fn is_written_back(rt: &HostRuntime, task: &Task, record: &[u8]) -> anyhow::Result<bool> {
    let mut out = vec![in rt.alloc(); 0u8; record.len()]?;
    Ok(writer::write(&task.record, &mut out).is_ok_and(|length| &out[..length] == record))
}

// Whether the examination with the kind `K` finds what is stored under this name.
fn finds_stored<K: CacheState>(
    rt: &HostRuntime,
    task: &Task,
    name: &str,
    kind: &str,
) -> anyhow::Result<bool> {
    let nothing = K::nothing(task.record.header.geometry);
    let mut work = vec![in rt.alloc(); nothing; 2 * task.record.blocks.len()]?;
    let Ok(found) = examine(rt.alloc(), task, &mut work) else {
        return Ok(false);
    };
    // Measured and laid here, as `report` does within: the crate hands out the report of a text, with the slot kind
    // alone. Laid into an empty buffer, the report only tells how long it is.
    let length = lay_report(&mut [], 0, task, &found);
    let mut report = vec![in rt.alloc(); 0u8; length]?;
    lay_report(&mut report, 0, task, &found);
    let path = format!(in rt.alloc(); "{name}.{kind}")?;
    let stored = fs::read(rt, path.as_str())?;
    Ok(report == stored)
}

// How a record that is accepted came out: only some have findings stored.
fn compare_task(
    rt: &HostRuntime,
    task: &Task,
    record: &[u8],
    expected: &[u8],
    name: &str,
) -> anyhow::Result<Outcome> {
    if !is_written_back(rt, task, record)? || expected.starts_with(b"refused=") {
        return Ok(Outcome::Wrong);
    }
    if expected == b"accepted\n".as_slice() {
        return Ok(Outcome::WrittenBack);
    }
    if finds_stored::<SlotState>(rt, task, name, "out")?
        && finds_stored::<LastLine>(rt, task, name, "last")?
    {
        Ok(Outcome::Examined)
    } else {
        Ok(Outcome::Wrong)
    }
}

// How the record that is stored under this name came out.
fn compare(rt: &HostRuntime, name: &str) -> anyhow::Result<Outcome> {
    let record_path = format!(in rt.alloc(); "{name}.rec")?;
    let outcome_path = format!(in rt.alloc(); "{name}.out")?;
    let record = fs::read(rt, record_path.as_str())?;
    let expected = fs::read(rt, outcome_path.as_str())?;
    match load(rt.alloc(), &record) {
        Ok(task) => compare_task(rt, &task, &record, &expected, name),
        Err(refusal) => {
            let line = format!(in rt.alloc(); "{refusal}\n")?;
            Ok(if line.as_bytes() == expected.as_slice() {
                Outcome::Refused
            } else {
                Outcome::Wrong
            })
        }
    }
}

// How many records came out in which way.
#[derive(Clone, Copy)]
struct Counts {
    written_back: u32,
    examined: u32,
    refused: u32,
    wrong: u32,
}

impl Counts {
    // Counts a record that came out so.
    fn add(&mut self, outcome: Outcome) {
        let count = match outcome {
            Outcome::WrittenBack => &mut self.written_back,
            Outcome::Examined => &mut self.examined,
            Outcome::Refused => &mut self.refused,
            Outcome::Wrong => &mut self.wrong,
        };
        *count = count.saturating_add(1);
    }
}

// Compares every record of the index, and prints how many came out in which way.
fn run(rt: &HostRuntime) -> anyhow::Result<()> {
    let index = fs::read_to_string(rt, "index")?;
    // Counted on the way: a list of what came of each record would grow with the index.
    let mut counts = Counts {
        written_back: 0,
        examined: 0,
        refused: 0,
        wrong: 0,
    };
    // A loop: it prints on the way, and can fail at each name.
    for name in index.lines() {
        let outcome = compare(rt, name)?;
        if outcome == Outcome::Wrong {
            println!(rt; "wrong: {name}")?;
        }
        counts.add(outcome);
    }
    let Counts {
        written_back,
        examined,
        refused,
        wrong,
    } = counts;
    println!(rt;
        "written back: {written_back}\nwritten back, and examined with both kinds: {examined}\nrefused: {refused}\nwrong: {wrong}"
    )?;
    Ok(())
}

fn main(rt: HostRuntime) -> anyhow::Result<()> {
    run(&rt)
}
