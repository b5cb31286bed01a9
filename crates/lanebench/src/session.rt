// The calls on the bench, each with its answer printed.
use crate::answers::{Answer, print_answer};
use crate::command::{Command, Kind};
use bench::bench::Bench;
use cache_state::CacheState;
use cache_state::lines::EMPTY;
use calls::fault::BenchFault;
use calls::refusal::Refusal;
use last_line_kind::LastLine;
use records::parts::Geometry;
use slot_kind::SlotState;
use std::fs;
use std::io::Write;

// Room for the longest record, and for the lines of the longest block.
const ROOM: usize = 16384;

// Two states for each of the most blocks that a task may have.
const STATES: usize = 256;

// The slots of the largest cache.
const MOST_SLOTS: usize = 64;

// Examines with a kind of cache state.
fn examine<K: CacheState>(rt: &HostRuntime, bench: &mut Bench) -> anyhow::Result<()> {
    // Any geometry will do: what comes of an examination does not depend on the states that it is handed.
    let nothing = K::nothing(Geometry { line: 4, slots: 1 });
    let mut work = vec![in rt.alloc(); nothing; STATES]?;
    print_answer(rt, bench.examine(&mut work).map(Answer::Passes))
}

// Opens a walk with as many empty slots as the task's cache has: the refusal of another length tells how many. The
// slots are an array, so that memory runs out nowhere but in the bench itself.
fn start_empty(bench: &mut Bench) -> Result<(), Refusal> {
    let empty = [EMPTY; MOST_SLOTS];
    match bench.start(&[]) {
        Err(Refusal::Bench(BenchFault::StartLength(slots))) if slots <= MOST_SLOTS => {
            bench.start(&empty[..slots])
        }
        answer => answer,
    }
}

// Prints the text that a call lays at the front of a buffer.
fn print_text<F: FnOnce(&mut [u8]) -> Result<usize, Refusal>>(
    rt: &HostRuntime,
    lay: F,
) -> anyhow::Result<()>
    requires { F.IsAlwaysCallable lay }
{
    let mut out = vec![in rt.alloc(); 0u8; ROOM]?;
    match lay(&mut out) {
        Ok(length) => {
            if let Some(text) = out.get(..length) {
                rt.stdout().write_all(text)?;
            }
        }
        Err(refusal) => println!(rt; "{refusal}")?,
    }
    Ok(())
}

// Makes the call and prints its answer.
pub fn obey(rt: &HostRuntime, bench: &mut Bench, command: Command) -> anyhow::Result<()> {
    match command {
        Command::Load(path) => {
            let text = fs::read(rt, path)?;
            print_answer(rt, bench.load(&text).map(|()| Answer::Loaded))
        }
        Command::Examine(Kind::Slot) => examine::<SlotState>(rt, bench),
        Command::Examine(Kind::Last) => examine::<LastLine>(rt, bench),
        Command::Start(cache) => {
            let answer = match cache {
                Some(lines) => bench.start(&lines),
                None => start_empty(bench),
            };
            print_answer(rt, answer.map(|()| Answer::Started))
        }
        Command::Step(block) => print_answer(rt, bench.step(block).map(|()| Answer::Stepped)),
        Command::Close => print_answer(rt, bench.close().map(|()| Answer::Closed)),
        Command::Write => print_text(rt, |out| bench.write(out)),
        Command::Figure => print_answer(rt, bench.figure().map(Answer::Figures)),
        Command::Ask {
            block,
            fetch,
            level,
        } => { print_answer(rt, bench.ask(block, fetch, level).map(Answer::Category)) }
        Command::List(block) => print_text(rt, |out| bench.list(block, out)),
        Command::Stand => print_answer(rt, bench.stand().map(Answer::Standing)),
    }
}
