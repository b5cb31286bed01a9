// Settling run on worked records, with each kind of facts.
#![tactic(auto)]

#[cfg(test)]
mod tests {
    use facts::Facts;
    use last_line_kind::LastLine;
    use load::load;
    use passed_kind::PassedBlocks;
    use records::parts::Geometry;
    use settle::region::Region;
    use settle::settle;
    use slot_kind::SlotState;
    use std::test::Fail;
    use walks::loops::task_loop;

    // Three blocks, the second a loop of its own.
    const SINGLE_LOOP: &[u8] =
        b"line=16\nslots=4\nhit=1\npenalty=9\nwindow=1000\nblocks=3\nblock=0,2,0\nblock=8,4,0\nblock=24,2,0\nloops=1\nloop=1,1,10\nedges=3\nedge=0,1\nedge=1,1\nedge=1,2\n";

    // Two lines that share a slot, in a loop of two blocks.
    const SHARED_SLOT: &[u8] =
        b"line=16\nslots=2\nhit=1\npenalty=9\nwindow=1000\nblocks=4\nblock=0,2,0\nblock=8,2,0\nblock=32,1,0\nblock=36,1,0\nloops=1\nloop=1,2,5\nedges=4\nedge=0,1\nedge=1,2\nedge=2,1\nedge=2,3\n";

    // A loop that calls a function twice.
    const TWO_CALLS: &[u8] =
        b"line=16\nslots=4\nhit=1\npenalty=9\nwindow=1000\nblocks=9\nblock=0,5,0\nblock=20,2,0\nblock=76,5,0\nblock=28,3,0\nblock=40,2,0\nblock=76,5,0\nblock=48,2,0\nblock=56,3,0\nblock=68,2,0\nloops=3\nloop=1,7,10\nloop=2,2,1\nloop=5,5,1\nedges=10\nedge=0,1\nedge=1,2\nedge=2,3\nedge=3,4\nedge=3,7\nedge=4,5\nedge=5,6\nedge=6,7\nedge=7,1\nedge=7,8\n";

    // The passes of the whole task, and whether the settled state of block `at` is sure of `thing`, for any kind.
    fn settled<G: Copy, K: Facts<G>>(
        rt: &HostRuntime,
        text: &[u8],
        at: usize,
        thing: u32,
        geometry: G,
    ) -> Result<(u32, bool), Fail> {
        let Ok(task) = load(rt.alloc(), text) else {
            return Err(Fail::new("refused"));
        };
        let region = Region {
            blocks: &task.record.blocks,
            edges: &task.record.edges,
            range: task_loop(&task),
        };
        let nothing = K::nothing(geometry);
        let mut states = vec![in rt.alloc(); nothing; task.record.blocks.len()]?;
        let passes = settle(&mut states, &region, K::open(geometry), geometry).ok_or(
            "not settled",
        )?;
        let state = states.get(at).copied().ok_or("no such block")?;
        Ok((passes, state.sure(thing, geometry)))
    }

    #[test]
    fn slots_settle(rt: HostRuntime) -> Result<(), Fail> {
        let geometry = Geometry { line: 16, slots: 4 };
        // Line 0 is resident wherever block 1 is entered, line 1 only after its first round.
        assert_eq!(rt;
            settled::<Geometry, SlotState>(&rt, SINGLE_LOOP, 1, 0, geometry)?,
            (2, true)
        );
        assert_eq!(rt;
            settled::<Geometry, SlotState>(&rt, SINGLE_LOOP, 1, 1, geometry)?,
            (2, false)
        );
        assert_eq!(rt;
            settled::<Geometry, SlotState>(&rt, TWO_CALLS, 8, 4, geometry)?.0,
            3
        );
        // The loop evicts line 0 by line 2.
        let geometry = Geometry { line: 16, slots: 2 };
        assert_eq!(rt;
            settled::<Geometry, SlotState>(&rt, SHARED_SLOT, 1, 0, geometry)?,
            (3, false)
        );
        Ok(())
    }

    #[test]
    fn last_lines_settle(rt: HostRuntime) -> Result<(), Fail> {
        let geometry = Geometry { line: 16, slots: 4 };
        assert_eq!(rt;
            settled::<Geometry, LastLine>(&rt, SINGLE_LOOP, 1, 0, geometry)?,
            (3, false)
        );
        assert_eq!(rt;
            settled::<Geometry, LastLine>(&rt, SINGLE_LOOP, 2, 1, geometry)?,
            (3, true)
        );
        Ok(())
    }

    #[test]
    fn passed_blocks_settle(rt: HostRuntime) -> Result<(), Fail> {
        // Every walk to block 3 has passed block 2; a walk to block 1 need not have.
        assert_eq!(rt;
            settled::<u32, PassedBlocks>(&rt, SHARED_SLOT, 3, 2, 4)?.1,
            true
        );
        assert_eq!(rt;
            settled::<u32, PassedBlocks>(&rt, SHARED_SLOT, 1, 2, 4)?.1,
            false
        );
        Ok(())
    }
}
