// A bench and the model, which take the same calls and have to answer alike.
use crate::model::*;
use crate::samples::*;
use crate::walk::*;
use bench::bench::Bench;
use cache_state::CacheState;
use calls::refusal::Refusal;
use facts::Facts;
use last_line_kind::LastLine;
use records::parts::Geometry;
use slot_kind::SlotState;
use std::alloc::AllocGlobal;
use std::process::Abort;
use std::test::*;

// The byte that a buffer is filled with before it is handed in.
const FILLER: u8 = 7;

fn verdict<T: Drop>(answer: Result<T, Refusal>) -> Verdict {
    match answer {
        Ok(_) => Ok(()),
        Err(refusal) => Err((refusal.number(), refusal.place())),
    }
}

// Whether an accepted call has laid the text at the front of the buffer, and whether all else is as it was handed in.
fn is_laid(answer: Verdict, buffer: &[u8], text: &[u8]) -> bool {
    let front = if answer.is_ok() { text } else { b"" };
    buffer
        .strip_prefix(front)
        .is_some_and(|rest| rest.iter().all(|byte| *byte == FILLER))
}

// Makes a call that lays the text into a buffer of so many bytes.
fn lay<F: FnOnce(&mut [u8]) -> Result<usize, Refusal>>(
    rt: &(impl Abort + AllocGlobal),
    text: &[u8],
    room: usize,
    call: F,
) -> Result<Verdict, Fail>
    requires { F.IsAlwaysCallable call }
{
    let mut buffer = vec![in rt.alloc(); FILLER; room]?;
    let answer = call(&mut buffer);
    assert!(rt; answer.unwrap_or(text.len()) == text.len());
    assert!(rt; is_laid(verdict(answer), buffer.as_slice(), text));
    Ok(verdict(answer))
}

// Examines with a working list of so many states, which a refusal leaves as they are.
fn examine<K: CacheState>(
    rt: &(impl Abort + AllocGlobal),
    bench: &mut Bench,
    passes: u32,
    states: usize,
) -> Result<Verdict, Fail> {
    // Any geometry will do: no answer depends on the states that are handed in, and here they are only compared.
    let geometry = Geometry { line: 4, slots: 64 };
    let open = K::open(geometry);
    let mut work = vec![in rt.alloc(); open; states]?;
    let answer = bench.examine(&mut work);
    let kept = work
        .iter()
        .all(|state| state.rank(geometry) == open.rank(geometry));
    assert!(rt; answer.is_ok() || kept);
    assert!(rt; answer.unwrap_or(passes) == passes);
    Ok(verdict(answer))
}

fn ask(
    rt: &impl Abort,
    bench: &Bench,
    found: Found,
    block: usize,
    fetch: usize,
    level: usize,
) -> Result<Verdict, Fail> {
    let answer = bench.ask(block, u32::try_from(fetch)?, level);
    if let Ok(category) = answer {
        assert_eq!(rt; category.letters(), found.category(block, fetch, level));
    }
    Ok(verdict(answer))
}

fn figure(rt: &impl Abort, bench: &Bench, found: Found) -> Result<Verdict, Fail> {
    let answer = bench.figure();
    if let Ok(figures) = answer {
        assert_eq!(rt;
            (figures.cycles, figures.greatest),
            (found.cycles, found.greatest)
        );
    }
    Ok(verdict(answer))
}

// Where the walk stands, which is never beyond the figures.
fn stand(rt: &impl Abort, bench: &Bench, walk: &Walk, found: Found) -> Result<Verdict, Fail> {
    let answer = bench.stand();
    if let Ok(standing) = answer {
        assert_eq!(rt;
            [standing.cycles, standing.misses, standing.fetches],
            [walk.cycles as u64, walk.misses as u64, walk.fetches as u64]
        );
        assert!(rt; standing.block == walk.block);
        assert!(rt; standing.cycles <= found.cycles && standing.misses <= found.greatest.0);
    }
    Ok(verdict(answer))
}

// Makes a call on the bench, once the model has taken it, and compares what it hands back.
fn make(
    rt: &(impl Abort + AllocGlobal),
    bench: &mut Bench,
    model: &Model,
    call: Call,
) -> Result<Verdict, Fail> {
    let found = model.found();
    match call {
        Call::Load(record) => Ok(verdict(bench.load(record.sample().text.as_bytes()))),
        Call::Examine(Kind::Slot, states) => examine::<SlotState>(rt, bench, found.passes, states),
        Call::Examine(Kind::Last, states) => examine::<LastLine>(rt, bench, found.passes, states),
        Call::Start(slots, seed) => {
            let cache = starting_cache(rt.alloc(), slots, seed)?;
            Ok(verdict(bench.start(cache.as_slice())))
        }
        Call::Step(block) => Ok(verdict(bench.step(block))),
        Call::Close => Ok(verdict(bench.close())),
        Call::Write(room) => lay(rt, model.written(), room, |out| bench.write(out)),
        Call::Figure => figure(rt, bench, found),
        Call::Ask(block, fetch, level) => ask(rt, bench, found, block, fetch, level),
        Call::List(block, room) => {
            lay(rt, found.listed(block), room, |out| bench.list(block, out))
        }
        Call::Stand => stand(rt, bench, &model.walk, found),
    }
}

// Makes a call on both. After it they stand alike.
pub fn take(
    rt: &(impl Abort + AllocGlobal),
    bench: &mut Bench,
    model: &mut Model,
    call: Call,
) -> Result<Verdict, Fail> {
    let expected = model.answer(rt.alloc(), call)?;
    assert_eq!(rt; make(rt, bench, model, call)?, expected);
    assert_eq!(rt; figure(rt, bench, model.found())?, model.figure());
    assert_eq!(rt;
        stand(rt, bench, &model.walk, model.found())?,
        model.stand()
    );
    Ok(expected)
}
