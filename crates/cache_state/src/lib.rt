// Kinds of cache state: facts about the cache, which a fetch changes.
#![tactic(auto)]

ghost use Rattle.std.specs.Prelude.{◌≡◌, ℕ, ◌<◌, true, take};
ghost use Rattle.records.specs.declared.parts.Geometry.{Geometry as Shape};
ghost use Rattle.facts.specs.Laws.{Distributes};
ghost use Rattle.facts.specs.Space.{placed};
ghost use Rattle.cache_state.specs.Cache.{in_range, fetch_all, fetch_lines as lines_of};
ghost use Rattle.cache_state.specs.Fetching.{Fetching, sure_fetch};
ghost use Rattle.cache_state.specs.Meaning.{Sound, Exactly};

pub mod lines;

use crate::lines::{fetch_lines, program_line};
use facts::Facts;
use records::parts::{Block, Geometry};

// A kind of facts about the cache. It takes every geometry that a record may have.
pub trait CacheState: Facts<Geometry> {
    ghost fetched: { Shape → ℕ → Self → Self };

    fn fetch(&self, line: u32, geometry: Geometry) -> Self
        ensures { Self.takes geometry ≡ true → result ≡ fetched geometry line self.now };

    // The state after the first `count` fetches of a block, if the block lies in the address space.
    fn fetch_first(&self, block: &Block, count: u32, geometry: Geometry) -> Self
        ensures { Self.takes geometry ≡ true → placed block.now ≡ true → result ≡ fetch_all (fetched geometry) (take count (lines_of geometry block.now)) self.now }
    {
        fetch_lines(*self, block, count, geometry, |state, line| {
            state.fetch(line, geometry)
        })
    }

    // Whether a fetch of a block is sure in this state, if the block has it and lies in the address space.
    fn sure_fetch(&self, block: &Block, fetch: u32, geometry: Geometry) -> bool
        ensures { Self.takes geometry ≡ true → placed block.now ≡ true → fetch < block.now.fetches → result ≡ sure_fetch geometry (Self.kind geometry) (fetched geometry) block.now fetch self.now }
    {
        let state = self.fetch_first(block, fetch, geometry);
        state.sure(program_line(block, fetch, geometry), geometry)
    }

    ghost everywhere: { (g : Shape) → in_range g ≡ true → Self.takes g ≡ true };

    ghost fetching: { (g : Shape) → Self.takes g ≡ true → Fetching g (Self.kind g) (fetched g) };

    ghost spreading: { (g : Shape) (t : ℕ) → Self.takes g ≡ true → Distributes (Self.kind g) (fetched g t) };
}

// Every kind's states allow the cache of each walk, whatever it was at the start: what they are sure of is resident.
pub fn states_are_sound<K: CacheState>()
    ensures { (g : Shape) → K.takes g ≡ true → Sound g (K.kind g) (K.fetched g) }
{}

// A fetch is sure in a settled state exactly when it is in the state of every walk.
pub fn states_are_exact<K: CacheState>()
    ensures { (g : Shape) → K.takes g ≡ true → Exactly g (K.kind g) (K.fetched g) }
{}
