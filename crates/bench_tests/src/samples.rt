// Records, and what is to come of them: worked out apart from the crates, from the rules in docs/ANALYSIS.md.
use crate::model::Verdict;

// The kinds of cache state.
#[derive(Clone, Copy)]
pub enum Kind {
    Slot,
    Last,
}

// What an examination finds.
#[derive(Clone, Copy)]
pub struct Found {
    pub passes: u32,
    pub cycles: u64,
    pub greatest: (u64, u64),
    // The lines of every fetch.
    listing: &'static str,
}

// A line of a listing: its block, its fetch, and the category at each level as it is written.
#[derive(Clone, Copy)]
struct FetchLine {
    block: usize,
    fetch: usize,
    categories: &'static str,
}

fn fetch_line(line: &'static str) -> Option<FetchLine> {
    let mut parts = line.strip_prefix("fetch=")?.split(',');
    Some(FetchLine {
        block: parts.next()?.parse().ok()?,
        fetch: parts.next()?.parse().ok()?,
        // The program line stands between.
        categories: parts.nth(1)?,
    })
}

impl Found {
    // Where the lines of a block, and of the blocks above it, begin.
    fn start(&self, block: usize) -> usize {
        self.listing
            .split_inclusive('\n')
            .take_while(|line| fetch_line(line).is_some_and(|line| line.block < block))
            .fold(0, |length: usize, line| length.saturating_add(line.len()))
    }

    // The lines of a block's fetches, which stand together.
    pub fn listed(&self, block: usize) -> &'static [u8] {
        let lines = self.start(block)..self.start(block.saturating_add(1));
        self.listing.as_bytes().get(lines).unwrap_or(b"")
    }

    // The category of a fetch at a level, as it is written.
    pub fn category(&self, block: usize, fetch: usize, level: usize) -> &'static str {
        self.listing
            .lines()
            .filter_map(fetch_line)
            .find(|line| line.block == block && line.fetch == fetch)
            .and_then(|line| line.categories.split('/').nth(level))
            .unwrap_or("")
    }
}

#[derive(Clone, Copy)]
pub struct Sample {
    pub text: &'static str,
    // Accepted, or the number and the place of the refusal.
    pub verdict: Verdict,
    pub by_slot: Found,
    pub by_last: Found,
}

const NOTHING: Found = Found {
    passes: 0,
    cycles: 0,
    greatest: (0, 0),
    listing: "",
};

// Three blocks, the second a loop of its own.
const SINGLE_LOOP: Sample = Sample {
    text: "line=16\nslots=4\nhit=1\npenalty=9\nwindow=1000\nblocks=3\nblock=0,2,0\nblock=8,4,0\nblock=24,2,0\nloops=1\nloop=1,1,10\nedges=3\nedge=0,1\nedge=1,1\nedge=1,2\n",
    verdict: Ok(()),
    by_slot: Found {
        passes: 2,
        cycles: 62,
        greatest: (2, 44),
        listing: "fetch=0,0,0,fm\nfetch=0,1,0,h\nfetch=1,0,0,h/h\nfetch=1,1,0,h/h\nfetch=1,2,1,fm/fm\nfetch=1,3,1,h/h\nfetch=2,0,1,h\nfetch=2,1,1,h\n",
    },
    by_last: Found {
        passes: 3,
        cycles: 62,
        greatest: (2, 44),
        listing: "fetch=0,0,0,fm\nfetch=0,1,0,h\nfetch=1,0,0,fm/fm\nfetch=1,1,0,h/h\nfetch=1,2,1,fm/fm\nfetch=1,3,1,h/h\nfetch=2,0,1,h\nfetch=2,1,1,h\n",
    },
};

// Two lines that share a slot, in a loop of two blocks.
const SHARED_SLOT: Sample = Sample {
    text: "line=16\nslots=2\nhit=1\npenalty=9\nwindow=1000\nblocks=4\nblock=0,2,0\nblock=8,2,0\nblock=32,1,0\nblock=36,1,0\nloops=1\nloop=1,2,5\nedges=4\nedge=0,1\nedge=1,2\nedge=2,1\nedge=2,3\n",
    verdict: Ok(()),
    by_slot: Found {
        passes: 3,
        cycles: 108,
        greatest: (10, 18),
        listing: "fetch=0,0,0,m\nfetch=0,1,0,h\nfetch=1,0,0,fh/m\nfetch=1,1,0,h/h\nfetch=2,0,2,m/m\nfetch=3,0,2,h\n",
    },
    by_last: Found {
        passes: 3,
        cycles: 108,
        greatest: (10, 18),
        listing: "fetch=0,0,0,m\nfetch=0,1,0,h\nfetch=1,0,0,fh/m\nfetch=1,1,0,h/h\nfetch=2,0,2,m/m\nfetch=3,0,2,h\n",
    },
};

// A loop in a loop: both can be left at once, and the outer goes round from inside the inner one.
const NESTED_LOOPS: Sample = Sample {
    text: "line=8\nslots=2\nhit=2\npenalty=7\nwindow=1000\nblocks=6\nblock=0,3,1\nblock=12,2,0\nblock=20,2,4\nblock=28,1,0\nblock=32,3,2\nblock=4,2,0\nloops=2\nloop=1,4,3\nloop=2,3,2\nedges=9\nedge=0,1\nedge=1,2\nedge=2,3\nedge=3,1\nedge=3,2\nedge=3,4\nedge=3,5\nedge=4,1\nedge=4,5\n",
    verdict: Ok(()),
    by_slot: Found {
        passes: 3,
        cycles: 233,
        greatest: (18, 38),
        listing: "fetch=0,0,0,m\nfetch=0,1,0,h\nfetch=0,2,1,m\nfetch=1,0,1,fh/m\nfetch=1,1,2,m/m\nfetch=2,0,2,h/h/h\nfetch=2,1,3,fm/m/m\nfetch=3,0,3,h/h/h\nfetch=4,0,4,m/m\nfetch=4,1,4,h/h\nfetch=4,2,5,m/m\nfetch=5,0,0,m\nfetch=5,1,1,m\n",
    },
    by_last: Found {
        passes: 3,
        cycles: 254,
        greatest: (21, 38),
        listing: "fetch=0,0,0,m\nfetch=0,1,0,h\nfetch=0,2,1,m\nfetch=1,0,1,fh/m\nfetch=1,1,2,m/m\nfetch=2,0,2,fm/m/m\nfetch=2,1,3,fm/m/m\nfetch=3,0,3,h/h/h\nfetch=4,0,4,m/m\nfetch=4,1,4,h/h\nfetch=4,2,5,m/m\nfetch=5,0,0,m\nfetch=5,1,1,m\n",
    },
};

// Loops of two rounds, one inside the other, that no edge leaves.
const TIGHT_LOOPS: Sample = Sample {
    text: "line=16\nslots=2\nhit=5\npenalty=1\nwindow=1101\nblocks=3\nblock=16,4,14\nblock=32,2,0\nblock=40,4,1\nloops=2\nloop=1,2,2\nloop=2,2,2\nedges=4\nedge=0,1\nedge=1,1\nedge=1,2\nedge=2,2\n",
    verdict: Ok(()),
    by_slot: Found {
        passes: 3,
        cycles: 99,
        greatest: (3, 16),
        listing: "fetch=0,0,1,m\nfetch=0,1,1,h\nfetch=0,2,1,h\nfetch=0,3,1,h\nfetch=1,0,2,fm/fm\nfetch=1,1,2,h/h\nfetch=2,0,2,h/h/h\nfetch=2,1,2,h/h/h\nfetch=2,2,3,fm/fm/m\nfetch=2,3,3,h/h/h\n",
    },
    by_last: Found {
        passes: 3,
        cycles: 99,
        greatest: (3, 16),
        listing: "fetch=0,0,1,m\nfetch=0,1,1,h\nfetch=0,2,1,h\nfetch=0,3,1,h\nfetch=1,0,2,fm/fm\nfetch=1,1,2,h/h\nfetch=2,0,2,fm/fm/fm\nfetch=2,1,2,h/h/h\nfetch=2,2,3,fm/fm/m\nfetch=2,3,3,h/h/h\n",
    },
};

// A cache of three slots.
const THREE_SLOTS: Sample = Sample {
    text: "line=16\nslots=3\nhit=1\npenalty=9\nwindow=1000\nblocks=3\nblock=0,2,0\nblock=8,4,0\nblock=24,2,0\nloops=1\nloop=1,1,10\nedges=3\nedge=0,1\nedge=1,1\nedge=1,2\n",
    verdict: Err((4, 2)),
    by_slot: NOTHING,
    by_last: NOTHING,
};

// A loop that ends before its header.
const BACKWARD_LOOP: Sample = Sample {
    text: "line=16\nslots=4\nhit=1\npenalty=9\nwindow=1000\nblocks=3\nblock=0,2,0\nblock=8,4,0\nblock=24,2,0\nloops=1\nloop=2,1,10\nedges=3\nedge=0,1\nedge=1,1\nedge=1,2\n",
    verdict: Err((5, 0)),
    by_slot: NOTHING,
    by_last: NOTHING,
};

#[derive(Clone, Copy)]
pub enum Record {
    SingleLoop,
    SharedSlot,
    ThreeSlots,
    BackwardLoop,
    NestedLoops,
    TightLoops,
}

impl Record {
    pub fn sample(self) -> Sample {
        match self {
            Record::SingleLoop => SINGLE_LOOP,
            Record::SharedSlot => SHARED_SLOT,
            Record::ThreeSlots => THREE_SLOTS,
            Record::BackwardLoop => BACKWARD_LOOP,
            Record::NestedLoops => NESTED_LOOPS,
            Record::TightLoops => TIGHT_LOOPS,
        }
    }
}
