// Lists of calls: some with the answers beside them, and a long one that is drawn by lot.
use crate::model::*;
use crate::pair::take;
use crate::samples::*;
use bench::bench::Bench;
use std::alloc::AllocGlobal;
use std::collections::BTreeMap;
use std::process::Abort;
use std::test::*;

// Takes the calls of a list, each with its answer.
fn follow(rt: &(impl Abort + AllocGlobal), list: &[(Call, Verdict)]) -> Result<Bench, Fail> {
    let mut bench = Bench::new(rt.alloc());
    let mut model = Model::new(rt.alloc())?;
    for (call, expected) in list {
        assert_eq!(rt; take(rt, &mut bench, &mut model, *call)?, *expected);
    }
    Ok(bench)
}

// The single loop, round by round; seed 4095 leaves every slot empty.
const TEN_ROUNDS: &[(Call, Verdict)] = &[
    (Call::Load(Record::SingleLoop), Ok(())),
    (Call::Examine(Kind::Slot, 6), Ok(())),
    (Call::Start(4, 4095), Ok(())),
    (Call::Step(2), Err((17, 2))),
    (Call::Step(1), Ok(())),
    (Call::Step(1), Ok(())),
    (Call::Step(1), Ok(())),
    (Call::Step(1), Ok(())),
    (Call::Step(1), Ok(())),
    (Call::Step(1), Ok(())),
    (Call::Step(1), Ok(())),
    (Call::Step(1), Ok(())),
    (Call::Step(1), Ok(())),
    (Call::Step(1), Ok(())),
    (Call::Step(1), Err((18, 1))),
    (Call::Step(0), Err((17, 0))),
    (Call::Step(3), Err((17, 3))),
    (Call::Step(2), Ok(())),
    (Call::Step(1), Err((17, 1))),
];

#[test]
fn a_loop_is_walked_to_its_limit(rt: HostRuntime) -> Result<(), Fail> {
    let bench = follow(&rt, TEN_ROUNDS)?;
    let (Ok(standing), Ok(figures)) = (bench.stand(), bench.figure()) else {
        return Err(Fail::new("refused"));
    };
    assert!(rt; standing.block == 2);
    // 2 + 10 × 4 + 2 fetches at 1 cycle, and a miss at 9 for each of the two lines.
    assert_eq!(rt;
        [standing.cycles, standing.misses, standing.fetches],
        [62, 2, 44]
    );
    assert_eq!(rt; (figures.cycles, figures.greatest), (62, (2, 44)));
    Ok(())
}

#[test]
fn a_refusal_is_printed_as_one_line(rt: HostRuntime) -> Result<(), Fail> {
    let bench = Bench::new(rt.alloc());
    let Err(refusal) = bench.stand() else {
        return Err(Fail::new("accepted"));
    };
    assert_eq!(rt; refusal.layer(), "bench");
    assert_eq!(rt;
        format!(in rt.alloc(); "{refusal}")?.as_str(),
        "refused=15,bench,0"
    );
    Ok(())
}

// Every call in each stage that does not take it, with and without further faults.
const WRONG_STAGE: &[(Call, Verdict)] = &[
    (Call::Examine(Kind::Slot, 6), Err((15, 0))),
    (Call::Examine(Kind::Last, 0), Err((15, 0))),
    (Call::Start(4, 0), Err((15, 0))),
    (Call::Step(1), Err((15, 0))),
    (Call::Close, Err((15, 0))),
    (Call::Write(0), Err((15, 0))),
    (Call::Write(400), Err((15, 0))),
    (Call::Figure, Err((15, 0))),
    (Call::Ask(0, 0, 0), Err((15, 0))),
    (Call::List(0, 100), Err((15, 0))),
    (Call::Stand, Err((15, 0))),
    (Call::Load(Record::SingleLoop), Ok(())),
    (Call::Load(Record::SingleLoop), Ok(())),
    (Call::Start(4, 0), Err((15, 1))),
    (Call::Step(1), Err((15, 1))),
    (Call::Close, Err((15, 1))),
    (Call::Figure, Err((15, 1))),
    (Call::Ask(3, 4, 2), Err((15, 1))),
    (Call::List(3, 0), Err((15, 1))),
    (Call::Stand, Err((15, 1))),
    (Call::Write(400), Ok(())),
    (Call::Examine(Kind::Last, 6), Ok(())),
    (Call::Examine(Kind::Slot, 6), Ok(())),
    (Call::Step(1), Err((15, 2))),
    (Call::Close, Err((15, 2))),
    (Call::Stand, Err((15, 2))),
    (Call::Write(400), Ok(())),
    (Call::Start(4, 0), Ok(())),
    (Call::Load(Record::SingleLoop), Err((15, 3))),
    (Call::Load(Record::ThreeSlots), Err((15, 3))),
    (Call::Examine(Kind::Slot, 6), Err((15, 3))),
    (Call::Examine(Kind::Last, 0), Err((15, 3))),
    (Call::Start(4, 0), Err((15, 3))),
    (Call::Start(0, 0), Err((15, 3))),
    (Call::Write(400), Ok(())),
    (Call::Figure, Ok(())),
    (Call::Ask(0, 0, 0), Ok(())),
    (Call::List(0, 100), Ok(())),
    (Call::Close, Ok(())),
    (Call::Close, Err((15, 2))),
    (Call::Load(Record::SingleLoop), Ok(())),
    (Call::Figure, Err((15, 1))),
];

// The last that is accepted and the first that is refused. The single loop has 4 slots, 3 blocks and a text of 145 bytes;
// block 1 has 4 fetches, 2 levels and lines of 66 bytes.
const BOTH_SIDES: &[(Call, Verdict)] = &[
    (Call::Load(Record::SingleLoop), Ok(())),
    (Call::Examine(Kind::Last, 5), Err((20, 6))),
    (Call::Examine(Kind::Slot, 5), Err((20, 6))),
    (Call::Examine(Kind::Slot, 6), Ok(())),
    (Call::Examine(Kind::Last, 5), Err((20, 6))),
    (Call::Ask(2, 1, 0), Ok(())),
    (Call::Ask(3, 0, 0), Err((19, 0))),
    (Call::Ask(3, 4, 2), Err((19, 0))),
    (Call::Ask(1, 3, 1), Ok(())),
    (Call::Ask(1, 4, 1), Err((19, 1))),
    (Call::Ask(1, 4, 2), Err((19, 1))),
    (Call::Ask(1, 3, 2), Err((19, 2))),
    (Call::Ask(2, 1, 1), Err((19, 2))),
    (Call::List(2, 100), Ok(())),
    (Call::List(3, 0), Err((19, 0))),
    (Call::List(1, 65), Err((20, 66))),
    (Call::List(1, 66), Ok(())),
    (Call::List(1, 67), Ok(())),
    (Call::Write(144), Err((20, 145))),
    (Call::Write(145), Ok(())),
    (Call::Write(146), Ok(())),
    (Call::Start(0, 0), Err((16, 4))),
    (Call::Start(3, 0), Err((16, 4))),
    (Call::Start(5, 0), Err((16, 4))),
    (Call::Start(4, 0), Ok(())),
];

// A refused record leaves the earlier one, with what was found of it.
const BAD_RECORDS: &[(Call, Verdict)] = &[
    (Call::Load(Record::ThreeSlots), Err((4, 2))),
    (Call::Write(400), Err((15, 0))),
    (Call::Load(Record::SingleLoop), Ok(())),
    (Call::Load(Record::BackwardLoop), Err((5, 0))),
    (Call::Write(400), Ok(())),
    (Call::Examine(Kind::Slot, 6), Ok(())),
    (Call::Load(Record::ThreeSlots), Err((4, 2))),
    (Call::Load(Record::BackwardLoop), Err((5, 0))),
    (Call::Write(400), Ok(())),
    (Call::Figure, Ok(())),
    (Call::Ask(1, 2, 0), Ok(())),
    (Call::List(1, 100), Ok(())),
    (Call::Start(4, 0), Ok(())),
    (Call::Load(Record::ThreeSlots), Err((15, 3))),
    (Call::Stand, Ok(())),
];

// A stay ends where the walk leaves its loop: the next has all its rounds again, and the loop around goes on with its own.
const NESTED_ROUNDS: &[(Call, Verdict)] = &[
    (Call::Load(Record::NestedLoops), Ok(())),
    (Call::Examine(Kind::Slot, 12), Ok(())),
    (Call::Start(2, 0), Ok(())),
    (Call::Step(1), Ok(())),
    (Call::Step(2), Ok(())),
    (Call::Step(3), Ok(())),
    (Call::Step(2), Ok(())),
    (Call::Step(3), Ok(())),
    (Call::Step(2), Err((18, 2))),
    (Call::Step(1), Ok(())),
    (Call::Step(2), Ok(())),
    (Call::Step(3), Ok(())),
    (Call::Step(2), Ok(())),
    (Call::Step(3), Ok(())),
    (Call::Step(4), Ok(())),
    (Call::Step(1), Ok(())),
    (Call::Step(2), Ok(())),
    (Call::Step(3), Ok(())),
    (Call::Step(1), Err((18, 1))),
    (Call::Step(5), Ok(())),
    (Call::Step(4), Err((17, 4))),
];

#[test]
fn calls_are_refused_at_their_edges(rt: HostRuntime) -> Result<(), Fail> {
    for list in [WRONG_STAGE, BOTH_SIDES, BAD_RECORDS, NESTED_ROUNDS] {
        let _bench = follow(&rt, list)?;
    }
    Ok(())
}

// Numbers drawn by lot, the same on every run.
#[derive(Drop)]
struct Lots(u64);

impl Lots {
    fn below(&mut self, most: usize) -> usize {
        self.0 = self
            .0
            .wrapping_mul(6364136223846793005)
            .wrapping_add(1442695040888963407);
        ((self.0 >> 33) as usize).checked_rem(most).unwrap_or(0)
    }

    fn record(&mut self) -> Record {
        match self.below(6) {
            0 => Record::SingleLoop,
            1 => Record::SharedSlot,
            2 => Record::ThreeSlots,
            3 => Record::BackwardLoop,
            4 => Record::NestedLoops,
            _ => Record::TightLoops,
        }
    }

    fn kind(&mut self) -> Kind {
        match self.below(2) {
            0 => Kind::Slot,
            _ => Kind::Last,
        }
    }

    // A call, mostly a step, and then mostly to a block next to the walk's.
    fn call(&mut self, model: &Model) -> Call {
        match self.below(40) {
            0 => Call::Load(self.record()),
            1 | 2 => Call::Examine(self.kind(), self.below(16)),
            3 => Call::Start(self.below(6), self.below(4096)),
            4..=9 => Call::Start(model.plan.slots, self.below(4096)),
            10 => Call::Close,
            11 => Call::Write(self.below(400)),
            12 | 13 => Call::Ask(self.below(7), self.below(5), self.below(4)),
            14 | 15 => Call::List(self.below(7), self.below(100)),
            16..=25 => Call::Step(self.below(model.plan.blocks.len().saturating_add(1))),
            _ => {
                let next = model.walk.block.saturating_add(self.below(3));
                Call::Step(next.saturating_sub(1))
            }
        }
    }
}

// Takes calls drawn by lot, and counts how often each number of refusal was answered; 0 stands for none.
fn follow_lots(rt: &(impl Abort + AllocGlobal)) -> Result<BTreeMap<u32, u32>, Fail> {
    let mut bench = Bench::new(rt.alloc());
    let mut model = Model::new(rt.alloc())?;
    let mut lots = Lots(2026);
    let mut seen = BTreeMap::new(rt.alloc());
    for _ in 0..20000 {
        let call = lots.call(&model);
        let number = match take(rt, &mut bench, &mut model, call)? {
            Ok(()) => 0,
            Err((number, _)) => number,
        };
        let times: &mut u32 = seen.entry(number)?.or_insert(0);
        *times = times.saturating_add(1);
    }
    Ok(seen)
}

#[test]
fn calls_are_answered_as_the_model_answers(rt: HostRuntime) -> Result<(), Fail> {
    let seen = follow_lots(&rt)?;
    for number in [0, 4, 5, 15, 16, 17, 18, 19, 20] {
        let often = seen.get(&number).is_some_and(|times| *times > 9);
        assert!(rt; often, "a refusal was hardly met");
    }
    Ok(())
}
