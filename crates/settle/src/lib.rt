// Settling: one fixpoint over lent lists of states, for every kind of facts.
#![tactic(auto)]

ghost use Rattle.std.specs.Prelude.{◌≡◌, ℕ, ◌+◌, ◌*◌, ◌<◌, ◌≤◌, not, length, replicate, Some, slice_set};
ghost use Rattle.facts.specs.Settling.{pass as passed, unchanged, passes as passes_of};
ghost use Rattle.settle.specs.View.{viewed};
ghost use Rattle.settle.specs.Outcome.{Ready, outcome, entry_of};

mod entries;
pub mod region;

use crate::entries::Entries;
use crate::region::Region;
use facts::Facts;

// Settles one round of a loop, which is entered in the state `entry`; the loop of the whole task,
// entered in the open state, is settled in the same way. The entry states of the blocks come to the front of
// `states`, and the answer is the number of passes. Refused, with nothing changed, where the kind does not
// take the geometry, the loop is not among the blocks, a block lies outside the address space, or
// the blocks are over 128 or more than the states.
pub fn settle<G: Copy, K: Facts<G>>(
    states: &mut [K],
    region: &Region,
    entry: K,
    geometry: G,
) -> Option<u32>
    ensures outcome { (result, states.new) ≡ outcome (K.kind geometry) (K.takes geometry) (viewed region.now) entry states.old }
    ensures few { (n : ℕ) → result ≡ Some n → n ≤ length region.now.blocks.now * (K.kind geometry).height + 1 }
{
    if !K::takes(geometry) || !region.is_settleable(states.len()) {
        return None;
    }
    let working = &mut states[..region.blocks.len()];
    begin(working, K::nothing(geometry), region.range.header, entry);
    Some(run(working, region, geometry))
}

// The state in which stays in a loop begin: open for the task loop, else joined from the end states
// of the blocks outside that lead to its header. The task's settled states are at the front of `states`.
// Refused where the kind does not take the geometry, an edge starts at no block, a block lies outside the
// address space, or the blocks are over 128 or more than the states.
pub fn entry_state<G: Copy, K: Facts<G>>(states: &[K], region: &Region, geometry: G) -> Option<K>
    ensures { result ≡ entry_of (K.kind geometry) (K.takes geometry) (viewed region.now) states.now }
{
    if !K::takes(geometry) || !region.has_room(states.len()) || !region.starts_below() {
        return None;
    }
    if region.range.header == 0 {
        return Some(K::open(geometry));
    }
    let entries = Entries {
        states: &states[..region.blocks.len()],
        region,
        geometry,
    };
    Some(entries.entering())
}

// Passes until one changes nothing.
fn run<G: Copy, K: Facts<G>>(states: &mut [K], region: &Region, geometry: G) -> u32
    requires { Ready (K.takes geometry) (viewed region.now) (length states.old) }
    ensures { passes_of (K.kind geometry) (viewed region.now) (length region.now.blocks.now * (K.kind geometry).height + 1) states.old ≡ (states.new, result) }
{
    // No list to go through: a pass is made until one changes nothing.
    let mut passes = 1;
    while pass(states, region, geometry) {
        passes += 1;
    }
    passes
}

// One pass: whether it changed a state.
fn pass<G: Copy, K: Facts<G>>(states: &mut [K], region: &Region, geometry: G) -> bool
    requires { Ready (K.takes geometry) (viewed region.now) (length states.old) }
    ensures after { states.new ≡ passed (K.kind geometry) (viewed region.now) states.old }
    ensures changed { result ≡ not (unchanged (K.kind geometry) states.old states.new) }
{
    // A loop with a flag: `any` would end at the first change, and each block is to have its turn. An open range:
    // the proof answers for one end of the loop, and of `..=` it would for two.
    let mut changed = false;
    for b in region.range.header..region.range.last + 1 {
        let old = states[b];
        let entries = Entries {
            states: &*states,
            // Lent again, as short as the states are.
            region: &*region,
            geometry,
        };
        let new = entries.turn(b);
        if new.rank(geometry) != old.rank(geometry) {
            changed = true;
        }
        states[b] = new;
    }
    changed
}

// The state `nothing` everywhere but at the header.
fn begin<K: Copy>(states: &mut [K], nothing: K, header: usize, entry: K)
    requires { header < length states.old }
    ensures { states.new ≡ slice_set (replicate (length states.old) nothing) header entry }
{
    // Not `fill`: it asks for a clone that cannot fail, which `Copy` does not promise.
    states.fill_with(|| nothing);
    states[header] = entry;
}
