// The slot kind of cache state: for each slot of the cache, the program line known to be in it.
#![tactic(auto)]

ghost use Rattle.std.specs.Prelude.{◌≡◌, ◌<◌};
ghost use Rattle.slot_kind.specs.Slots.{slot_kind, slots_taken, slots_fetched, line_in, stored_line, common_lines, known_slots};
ghost use Rattle.slot_kind.specs.Laws.{slots_few, slots_lawful, slots_distributing, slots_everywhere, slots_fetching, fetch_through};

use cache_state::CacheState;
use cache_state::lines::{EMPTY, fetch_lines, slot_of};
use facts::Facts;
use records::parts::{Block, Geometry};

#[derive(Clone, Copy)]
pub struct SlotState {
    // The line known to be in each slot, or EMPTY where none is known. None where no walk has come yet. 64 slots, as
    // a state is `Copy` and lent, and EMPTY in them, so that it compares with the cache's own slots.
    pub lines: Option<[u32; 64]>,
}

// The line known to be in a slot.
fn line_in(lines: &[u32; 64], slot: u32) -> u32
    ensures { result ≡ line_in lines.now slot }
{
    lines.get(slot as usize).copied().unwrap_or(EMPTY)
}

// Fetches this line into a slot.
fn store(lines: &mut [u32; 64], slot: u32, line: u32)
    ensures { slot < 64 → lines.new ≡ stored_line lines.old slot line }
{
    if slot < 64 {
        lines[slot as usize] = line;
    }
}

// What both know of each slot.
fn common(a: &[u32; 64], b: &[u32; 64]) -> [u32; 64]
    ensures { result ≡ common_lines a.now b.now }
{
    // A loop by index: of `array::from_fn` the proof that its closure gives this at each of 64 slots does not close.
    let mut lines = [EMPTY; 64];
    for slot in 0..64 {
        lines[slot] = if a[slot] == b[slot] { a[slot] } else { EMPTY };
    }
    lines
}

// How many of the first slots have a known line.
fn known_slots(lines: &[u32; 64], slots: u32) -> u32
    ensures { result ≡ known_slots lines.now slots }
{
    // By number, as `line_in` of the specification counts them: past the list's end a slot holds no line. A sum without
    // a branch, since each turn of a block in settling asks twice for a rank.
    (0..slots)
        .map(|slot| u32::from(line_in(lines, slot) != EMPTY))
        .sum()
}

impl Facts<Geometry> for SlotState {
    ghost kind = { slot_kind };

    ghost takes = { slots_taken };

    ghost lawful = { λ g e. slots_lawful g (slots_few g e).0 (slots_few g e).1 };

    ghost distributing = { λ g e. slots_distributing g (slots_few g e).0 };

    fn takes(geometry: Geometry) -> bool {
        (1..=64).contains(&geometry.slots)
    }

    fn nothing(_geometry: Geometry) -> SlotState {
        SlotState { lines: None }
    }

    fn open(_geometry: Geometry) -> SlotState {
        SlotState {
            lines: Some([EMPTY; 64]),
        }
    }

    fn join(&self, other: &SlotState, _geometry: Geometry) -> SlotState {
        match (&self.lines, &other.lines) {
            (None, _) => *other,
            (Some(_), None) => *self,
            (Some(a), Some(b)) => SlotState {
                lines: Some(common(a, b)),
            },
        }
    }

    fn sure(&self, line: u32, geometry: Geometry) -> bool {
        self.lines.as_ref().is_none_or(|lines| line_in(lines, slot_of(line, geometry)) == line
            && line != EMPTY)
    }

    fn rank(&self, geometry: Geometry) -> u32 {
        self.lines
            .as_ref()
            .map_or(geometry.slots.saturating_add(1), |lines| {
                known_slots(lines, geometry.slots)
            })
    }

    fn pass(&self, _number: usize, block: &Block, geometry: Geometry) -> SlotState {
        // Not `fetch_first`: it belongs to `CacheState`, which stands on this impl.
        fetch_lines(*self, block, block.fetches, geometry, |state, line| {
            state.fetch(line, geometry)
        })
    }
}

impl CacheState for SlotState {
    ghost fetched = { slots_fetched };

    ghost everywhere = { λ g e. slots_everywhere g e };

    ghost fetching = { λ g e. slots_fetching g (slots_few g e).0 };

    ghost spreading = { λ g t e. (fetch_through g (slots_few g e).0 t).distributes };

    fn fetch(&self, line: u32, geometry: Geometry) -> SlotState {
        // One copy of the slots, and the line stored in it: states are copied wherever they are handed on.
        let mut state = *self;
        if let Some(lines) = &mut state.lines {
            let slot = slot_of(line, geometry);
            store(lines, slot, line);
        }
        state
    }
}
