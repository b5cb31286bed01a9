use crate::every_walk::{block_cost, greatest, stay_cost};
use load::load;
use longest::Cell;
use search::greatest_charge;
use std::alloc::AllocGlobal;
use std::process::Abort;
use std::test::*;

// The search's answer for a record, with the made-up costs.
fn searched(rt: &impl AllocGlobal, text: &[u8]) -> Result<u64, Fail> {
    let Ok(task) = load(rt.alloc(), text) else {
        return Err(Fail::new("refused"));
    };
    let blocks = task.record.blocks.len();
    let numbers = task.record.loops.len().saturating_add(1);
    let first: Vec<u64> = (0..blocks)
        .map(|b| block_cost(b).first)
        .collect(rt.alloc())?;
    let later: Vec<u64> = (0..blocks)
        .map(|b| block_cost(b).later)
        .collect(rt.alloc())?;
    let stays: Vec<u64> = (0..numbers).map(stay_cost).collect(rt.alloc())?;
    let mut work = vec![in rt.alloc(); Cell::blank(); blocks]?;
    Ok(greatest_charge(&task, &first, &later, &stays, &mut work).ok_or("not searched")?)
}

// Every walk of the record has at most `steps` steps: one more finds nothing greater.
fn walked(rt: &impl AllocGlobal, text: &[u8], steps: u32) -> Result<u64, Fail> {
    let Ok(task) = load(rt.alloc(), text) else {
        return Err(Fail::new("refused"));
    };
    Ok(greatest(&task, steps))
}

fn compare(rt: &(impl Abort + AllocGlobal), text: &[u8], steps: u32) -> Result<(), Fail> {
    assert_eq!(rt; searched(rt, text)?, walked(rt, text, steps)?);
    Ok(())
}

#[test]
fn a_loop_of_one_block(rt: HostRuntime) -> Result<(), Fail> {
    compare(
        &rt,
        b"line=16\nslots=4\nhit=1\npenalty=9\nwindow=1000\nblocks=3\nblock=0,1,0\nblock=4,1,0\nblock=8,1,0\nloops=1\nloop=1,1,10\nedges=3\nedge=0,1\nedge=1,1\nedge=1,2\n",
        12,
    )
}

#[test]
fn two_loops_left_at_once(rt: HostRuntime) -> Result<(), Fail> {
    compare(
        &rt,
        b"line=16\nslots=4\nhit=1\npenalty=9\nwindow=1000\nblocks=6\nblock=0,1,0\nblock=4,1,0\nblock=8,1,0\nblock=12,1,0\nblock=16,1,0\nblock=20,1,0\nloops=2\nloop=1,4,3\nloop=2,3,3\nedges=8\nedge=0,1\nedge=1,2\nedge=2,3\nedge=3,2\nedge=3,4\nedge=3,5\nedge=4,1\nedge=4,5\n",
        26,
    )
}

#[test]
fn an_edge_back_to_the_outer_header(rt: HostRuntime) -> Result<(), Fail> {
    compare(
        &rt,
        b"line=16\nslots=4\nhit=1\npenalty=9\nwindow=1000\nblocks=6\nblock=0,1,0\nblock=4,1,0\nblock=8,1,0\nblock=12,1,0\nblock=16,1,0\nblock=20,1,0\nloops=2\nloop=1,4,3\nloop=2,3,3\nedges=8\nedge=0,1\nedge=1,2\nedge=2,3\nedge=3,1\nedge=3,2\nedge=3,4\nedge=4,1\nedge=4,5\n",
        26,
    )
}

#[test]
fn several_edges_back(rt: HostRuntime) -> Result<(), Fail> {
    compare(
        &rt,
        b"line=16\nslots=4\nhit=1\npenalty=9\nwindow=1000\nblocks=6\nblock=0,1,0\nblock=4,1,0\nblock=8,1,0\nblock=12,1,0\nblock=16,1,0\nblock=20,1,0\nloops=1\nloop=1,4,4\nedges=9\nedge=0,1\nedge=1,2\nedge=1,3\nedge=2,1\nedge=2,4\nedge=3,1\nedge=3,4\nedge=4,1\nedge=4,5\n",
        14,
    )
}

#[test]
fn a_limit_of_one(rt: HostRuntime) -> Result<(), Fail> {
    compare(
        &rt,
        b"line=16\nslots=4\nhit=1\npenalty=9\nwindow=1000\nblocks=5\nblock=0,1,0\nblock=4,1,0\nblock=8,1,0\nblock=12,1,0\nblock=16,1,0\nloops=2\nloop=1,2,1\nloop=3,3,1\nedges=5\nedge=0,1\nedge=1,2\nedge=2,1\nedge=2,3\nedge=3,4\n",
        5,
    )
}

#[test]
fn a_limit_of_two(rt: HostRuntime) -> Result<(), Fail> {
    compare(
        &rt,
        b"line=16\nslots=4\nhit=1\npenalty=9\nwindow=1000\nblocks=4\nblock=0,1,0\nblock=4,1,0\nblock=8,1,0\nblock=12,1,0\nloops=1\nloop=1,2,2\nedges=4\nedge=0,1\nedge=1,2\nedge=2,1\nedge=2,3\n",
        6,
    )
}

#[test]
fn a_best_walk_that_ends_inside(rt: HostRuntime) -> Result<(), Fail> {
    compare(
        &rt,
        b"line=16\nslots=4\nhit=1\npenalty=9\nwindow=1000\nblocks=4\nblock=0,1,0\nblock=4,1,0\nblock=8,1,0\nblock=12,1,0\nloops=1\nloop=1,2,5\nedges=4\nedge=0,1\nedge=0,3\nedge=1,2\nedge=2,1\n",
        11,
    )
}

#[test]
fn three_loops_deep(rt: HostRuntime) -> Result<(), Fail> {
    compare(
        &rt,
        b"line=16\nslots=4\nhit=1\npenalty=9\nwindow=1000\nblocks=7\nblock=0,1,0\nblock=4,1,0\nblock=8,1,0\nblock=12,1,0\nblock=16,1,0\nblock=20,1,0\nblock=24,1,0\nloops=3\nloop=1,5,2\nloop=2,4,2\nloop=3,3,2\nedges=10\nedge=0,1\nedge=1,2\nedge=2,3\nedge=3,1\nedge=3,3\nedge=3,4\nedge=4,2\nedge=4,5\nedge=5,1\nedge=5,6\n",
        22,
    )
}

#[test]
fn loops_side_by_side(rt: HostRuntime) -> Result<(), Fail> {
    compare(
        &rt,
        b"line=16\nslots=4\nhit=1\npenalty=9\nwindow=1000\nblocks=6\nblock=0,1,0\nblock=4,1,0\nblock=8,1,0\nblock=12,1,0\nblock=16,1,0\nblock=20,1,0\nloops=2\nloop=1,2,3\nloop=3,4,3\nedges=8\nedge=0,1\nedge=0,3\nedge=1,2\nedge=2,1\nedge=2,3\nedge=3,4\nedge=4,3\nedge=4,5\n",
        14,
    )
}

// Too many walks to go through: the figure was found by a longest path over all blocks and rounds, elsewhere.
#[test]
fn a_million_rounds(rt: HostRuntime) -> Result<(), Fail> {
    assert_eq!(rt;
        searched(
            &rt,
            b"line=16\nslots=4\nhit=1\npenalty=9\nwindow=1000\nblocks=4\nblock=0,1,0\nblock=4,1,0\nblock=8,1,0\nblock=12,1,0\nloops=2\nloop=1,2,1000\nloop=2,2,1000\nedges=5\nedge=0,1\nedge=1,2\nedge=2,1\nedge=2,2\nedge=2,3\n",
        )?,
        10123232
    );
    Ok(())
}
