// The program lines of fetches, and their slots.
ghost use Rattle.std.specs.Prelude.{◌≡◌, ℕ, min, true, take};
ghost use Rattle.facts.specs.Space.{placed};
ghost use Rattle.cache_state.specs.Cache.{fetch_line, fetch_lines, fetch_all, slot_of, empty};

use records::parts::{Block, Geometry};

// In a cache's slot: no line. A starting cache is handed in as numbers, with this one for an empty slot, and a walk's
// cache is that list; so the slots hold no Option.
pub const EMPTY: u32 = u32::MAX;

// The program line of a block's fetch, counted from 0. Past the address space it may not fit, and is given as no line.
pub fn program_line(block: &Block, fetch: u32, geometry: Geometry) -> u32
    ensures { result ≡ min (fetch_line geometry block.now fetch) empty }
{
    // Block and geometry stay apart: passed blocks pass the same blocks, and have another geometry. And no Option:
    // each caller that needs the line has a block in the address space, where it fits.
    let bytes = u64::from(block.address) + 4 * u64::from(fetch);
    let line = bytes.checked_div(u64::from(geometry.line)).unwrap_or(0);
    u32::try_from(line).unwrap_or(EMPTY)
}

// The slot of a program line; in a cache without slots, the line itself.
pub fn slot_of(line: u32, geometry: Geometry) -> u32
    ensures { result ≡ slot_of geometry line }
{
    line.checked_rem(geometry.slots).unwrap_or(line)
}

// A state after the first `count` fetches of a block, if the block lies in the address space; `fetch` fetches a line.
pub fn fetch_lines<S, F: Fn(S, u32) -> S>(
    state: S,
    block: &Block,
    count: u32,
    geometry: Geometry,
    fetch: F,
) -> S
    requires { F.IsAlwaysCallable fetch }
    ensures { placed block.now ≡ true → (fetched : ℕ → S → S) → ((x : S) (t : ℕ) (y : S) → F.post fetch x t y → y ≡ fetched t x) → result ≡ fetch_all fetched (take count (fetch_lines geometry block.now)) state }
{
    (0..count.min(block.fetches))
        .map(|number| program_line(block, number, geometry))
        .fold(state, fetch)
}
