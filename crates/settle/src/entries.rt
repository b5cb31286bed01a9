// The entry states of a region's blocks, as they stand.
ghost use Rattle.std.specs.Prelude.{◌≡◌, ◌<◌, ◌≤◌, true, length};
ghost use Rattle.std.specs.List.{list_all};
ghost use Rattle.facts.specs.Space.{placed};

use crate::region::Region;
use facts::Facts;

// The entry states of a kind that takes the geometry, and blocks that lie in the address space.
#[derive(Drop)]
pub(crate) struct Entries<'a, G: Copy, K: Facts<G>> {
    pub states: &'a [K],
    pub region: &'a Region<'a>,
    pub geometry: G,

    ghost taken: { K.takes geometry ≡ true },
    ghost placed: { list_all placed region.now.blocks.now ≡ true },
    ghost room: { length region.now.blocks.now ≤ length states.now },
}

impl<G: Copy, K: Facts<G>> Entries<'_, G, K> {
    ghost use Rattle.facts.specs.Settling.{leads_in, starts, predecessors, state_at, end_state, gathered};
    ghost use Rattle.settle.specs.View.{viewed};
    ghost use Rattle.settle.specs.Outcome.{starts_below};

    // The entry state of block b, joined with its predecessors' end states.
    pub(crate) fn turn(&self, b: usize) -> K
        requires at { b < length self.now.region.now.blocks.now }
        requires fits { self.now.region.now.range.last < length self.now.region.now.blocks.now }
        ensures { result ≡ gathered (K.kind self.now.geometry) self.now.region.now.blocks.now self.now.states.now (state_at (K.kind self.now.geometry) self.now.states.now b) (predecessors (viewed self.now.region.now) b) }
    {
        // A loop, for the reason at `entering`.
        let mut state = self.states[b];
        for edge in self.region.edges {
            if self.region.leads_on(edge, b) {
                state = self.add(state, edge.from);
            }
        }
        state
    }

    // The end states of the blocks outside the loop that lead to its header, joined.
    pub(crate) fn entering(&self) -> K
        requires { list_all (starts_below (length self.now.region.now.blocks.now)) self.now.region.now.edges.now ≡ true }
        ensures { result ≡ gathered (K.kind self.now.geometry) self.now.region.now.blocks.now self.now.states.now (K.kind self.now.geometry).nothing_yet (starts (leads_in self.now.region.now.range) self.now.region.now.edges.now) }
    {
        // A loop: with `filter` and `fold` it stays unproved that each edge left starts at a block, which `add` asks.
        let mut state = K::nothing(self.geometry);
        for edge in self.region.edges {
            if self.region.leads_in(edge) {
                state = self.add(state, edge.from);
            }
        }
        state
    }

    // The state joined with the end state of block p.
    fn add(&self, state: K, p: usize) -> K
        requires { p < length self.now.region.now.blocks.now }
        ensures { result ≡ (K.kind self.now.geometry).joined state (end_state (K.kind self.now.geometry) self.now.region.now.blocks.now self.now.states.now p) }
    {
        let before = self.states[p];
        let end = before.pass(p, &self.region.blocks[p], self.geometry);
        state.join(&end, self.geometry)
    }
}
