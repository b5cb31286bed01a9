// The last-line kind of cache state: the latest fetched program line.
#![tactic(auto)]

ghost use Rattle.last_line_kind.specs.LastLine.{last_kind, last_taken, last_fetched};
ghost use Rattle.last_line_kind.specs.Laws.{last_lawful, pass_through, last_everywhere, last_fetching, fetch_through};
ghost use Rattle.std.proofs.lemmas.Bool.{ltb-true};

use cache_state::CacheState;
use cache_state::lines::fetch_lines;
use facts::Facts;
use records::parts::{Block, Geometry};

// An enum of its own: of an `Option<Option<u32>>` no match would show which None is meant.
#[derive(Clone, Copy)]
pub enum LastLine {
    // No walk has come here yet.
    Nothing,
    // The line that was fetched last on every walk.
    Line(u32),
    // Any line, or none.
    Unknown,
}

impl Facts<Geometry> for LastLine {
    ghost kind = { last_kind };

    ghost takes = { last_taken };

    ghost lawful = { λ g e. last_lawful g };

    ghost distributing = { λ g e b block. (pass_through g b block).distributes };

    fn takes(geometry: Geometry) -> bool {
        0 < geometry.slots
    }

    fn nothing(_geometry: Geometry) -> LastLine {
        Self::Nothing
    }

    fn open(_geometry: Geometry) -> LastLine {
        Self::Unknown
    }

    fn join(&self, other: &LastLine, _geometry: Geometry) -> LastLine {
        match (*self, *other) {
            (LastLine::Nothing, _) => *other,
            (LastLine::Line(_), LastLine::Nothing) => *self,
            (LastLine::Line(line), LastLine::Line(also)) if line == also => *self,
            _ => LastLine::Unknown,
        }
    }

    fn sure(&self, line: u32, _geometry: Geometry) -> bool {
        match *self {
            LastLine::Nothing => true,
            LastLine::Line(last) => last == line,
            LastLine::Unknown => false,
        }
    }

    fn rank(&self, _geometry: Geometry) -> u32 {
        match self {
            LastLine::Nothing => 2,
            LastLine::Line(_) => 1,
            LastLine::Unknown => 0,
        }
    }

    fn pass(&self, _number: usize, block: &Block, geometry: Geometry) -> LastLine {
        // Not `fetch_first`: it belongs to `CacheState`, which stands on this impl.
        fetch_lines(*self, block, block.fetches, geometry, |state, line| {
            state.fetch(line, geometry)
        })
    }
}

impl CacheState for LastLine {
    ghost fetched = { λ _. last_fetched };

    ghost everywhere = { λ g e. last_everywhere g e };

    ghost fetching = { λ g e. last_fetching g (ltb-true 0 g.slots e) };

    ghost spreading = { λ g t e. (fetch_through g t).distributes };

    fn fetch(&self, line: u32, _geometry: Geometry) -> LastLine {
        match self {
            LastLine::Nothing => LastLine::Nothing,
            _ => LastLine::Line(line),
        }
    }
}
