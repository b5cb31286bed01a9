// Kinds of facts: what holds of a cache, or of the blocks passed, on every walk.
#![tactic(auto)]

ghost use Rattle.std.specs.Prelude.{◌≡◌, Bool, true};
ghost use Rattle.facts.specs.Kind.{Kind};
ghost use Rattle.facts.specs.Laws.{Lawful, Distributing};
ghost use Rattle.facts.specs.Meaning.{Ending, Meaningful};
ghost use Rattle.facts.specs.Space.{placed};

use records::parts::Block;

// A kind of facts. Besides the state, the block and the thing asked for, its answers depend only on
// a geometry of type G: of a cache kind the shape of the cache, of passed blocks their number. They
// mean what `kind` says wherever the kind takes the geometry, and are free elsewhere.
pub trait Facts<G: Copy>: Copy {
    // What the states mean at each geometry.
    ghost kind: { G → Kind Self };

    // The geometries at which the laws are owed.
    ghost takes: { G → Bool };

    fn takes(geometry: G) -> bool
        ensures { result ≡ takes geometry };

    fn nothing(geometry: G) -> Self
        ensures { takes geometry ≡ true → result ≡ (kind geometry).nothing_yet };

    fn open(geometry: G) -> Self
        ensures { takes geometry ≡ true → result ≡ (kind geometry).open_state };

    fn join(&self, other: &Self, geometry: G) -> Self
        ensures { takes geometry ≡ true → result ≡ (kind geometry).joined self.now other.now };

    fn sure(&self, thing: u32, geometry: G) -> bool
        ensures { takes geometry ≡ true → result ≡ (kind geometry).sure self.now thing };

    fn rank(&self, geometry: G) -> u32
        ensures { takes geometry ≡ true → result ≡ (kind geometry).ranked self.now };

    // The state after the block of this number, if the block lies in the address space.
    fn pass(&self, number: usize, block: &Block, geometry: G) -> Self
        ensures { takes geometry ≡ true → placed block.now ≡ true → result ≡ (kind geometry).passed number block.now self.now };

    ghost lawful: { (g : G) → takes g ≡ true → Lawful (kind g) };

    // Apart from the others: settling ends without it, and is exact by it.
    ghost distributing: { (g : G) → takes g ≡ true → Distributing (kind g) };
}

// Settling ends for every kind, within a pass for each rank that can fall.
pub fn settling_ends<G: Copy, K: Facts<G>>()
    ensures { (g : G) → K.takes g ≡ true → Ending (K.kind g) }
{}

// The settled states of a task are sure of just what holds on every walk.
pub fn settling_is_exact<G: Copy, K: Facts<G>>()
    ensures { (g : G) → K.takes g ≡ true → Meaningful (K.kind g) }
{}
