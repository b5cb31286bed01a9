// The fetches of a block: what they leave in the cache, and what they cost.
ghost use Rattle.std.specs.Prelude.{◌≡◌, ◌-◌, ◌^◌, min, true};
ghost use Rattle.facts.specs.Space.{placed};
ghost use Rattle.cache_state.specs.Cache.{fetch_lines, fetch_cache, fetch_all};
ghost use Rattle.run.specs.Run.{missed, misses_of};
ghost use Rattle.run.specs.Open.{entry_cycles};

use cache_state::lines::{EMPTY, program_line, slot_of};
use records::parts::*;

// Fetches a line, which its slot holds then, and answers with the misses: 1, or 0 where the slot held it before.
fn fetch_line(line: u32, geometry: Geometry, cache: &mut [u32]) -> u32
    ensures misses { result ≡ missed geometry line cache.old }
    ensures cache { cache.new ≡ fetch_cache geometry line cache.old }
{
    // A number and no flag, since the answer is only ever added up.
    let slot = slot_of(line, geometry) as usize;
    let held = cache.get(slot).copied().unwrap_or(EMPTY);
    // By index, since a proof knows nothing of a slice's elements once it is written through `get_mut`.
    if slot < cache.len() {
        cache[slot] = line;
    }
    u32::from(held != line)
}

// Makes a block's fetches in order, and answers with the misses.
pub(crate) fn fetch_block(block: &Block, geometry: Geometry, cache: &mut [u32]) -> u32
    requires { placed block.now ≡ true }
    ensures misses { result ≡ misses_of geometry (fetch_lines geometry block.now) cache.old }
    ensures cache { cache.new ≡ fetch_all (fetch_cache geometry) (fetch_lines geometry block.now) cache.old }
{
    let mut misses = 0;
    // A loop, and no sum of a chain: each fetch changes the cache that the next one finds.
    for fetch in 0..block.fetches {
        misses += fetch_line(program_line(block, fetch, geometry), geometry, cache);
    }
    misses
}

// The cycles of an entry of the block, when so many of its fetches miss; `u64::MAX` where they are more.
pub fn entry_cycles(header: Header, block: Block, misses: u32) -> u64
    ensures { result ≡ min (entry_cycles header block misses) (2 ^ 64 - 1) }
{
    let hits = u64::from(header.hit) * u64::from(block.fetches);
    let penalties = u64::from(header.penalty) * u64::from(misses);
    u64::from(block.cycles).saturating_add(hits.saturating_add(penalties))
}
