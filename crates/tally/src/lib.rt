// What a walk is charged: anything that can be added up and compared.
#![tactic(auto)]

ghost use Rattle.std.specs.Prelude.{◌≡◌, ℕ, ◌+◌, ◌*◌, ◌^◌, ◌<◌, nat_lt};
ghost use Rattle.tally.specs.Laws.{Ops, TallyLaws};
ghost use Rattle.tally.specs.Kinds.{cycles, cycles_size, pairs, pair_size};
ghost use Rattle.tally.specs.Lawful.{cycles_lawful, pairs_lawful};

// The costs that `fits` accepts are smaller than this.
const COST_LIMIT: u64 = 1 << 32;

// The ghost operations are those of unbounded numbers; the code agrees with them where the sizes
// stay below 2 to the 63rd.
pub trait Tally: Copy {
    ghost ops: { Ops Self };

    // How large the parts are together.
    ghost size: { Self → ℕ };

    fn zero() -> Self
        ensures { result ≡ ops.none };

    fn add(self, other: Self) -> Self
        ensures { size self + size other < 2 ^ 63 → result ≡ ops.plus self other };

    fn times(self, n: u32) -> Self
        ensures { n * size self < 2 ^ 63 → result ≡ ops.times n self };

    // Not `Ord`: this clause ties the order to the operations that the laws are about, and an `Ord`
    // of the type would need a law of its own for that.
    fn less(&self, other: &Self) -> bool
        ensures { result ≡ ops.below self.now other.now };

    // Whether this is small enough for the cost of one block or of one stay.
    fn fits(&self) -> bool
        ensures { result ≡ nat_lt (size self.now) (2 ^ 32) };

    ghost lawful: { TallyLaws ops size };
}

// Cycles.
impl Tally for u64 {
    ghost ops = { cycles };

    ghost size = { cycles_size };

    ghost lawful = { cycles_lawful };

    fn zero() -> u64 {
        0
    }

    fn add(self, other: u64) -> u64 {
        self.saturating_add(other)
    }

    fn times(self, n: u32) -> u64 {
        self.saturating_mul(n as u64)
    }

    fn less(&self, other: &u64) -> bool {
        *self < *other
    }

    fn fits(&self) -> bool {
        *self < COST_LIMIT
    }
}

// Charged misses, and then fetches.
impl Tally for (u64, u64) {
    ghost ops = { pairs };

    ghost size = { pair_size };

    ghost lawful = { pairs_lawful };

    fn zero() -> (u64, u64) {
        (0, 0)
    }

    fn add(self, other: (u64, u64)) -> (u64, u64) {
        (
            self.0.saturating_add(other.0),
            self.1.saturating_add(other.1),
        )
    }

    fn times(self, n: u32) -> (u64, u64) {
        (
            self.0.saturating_mul(n as u64),
            self.1.saturating_mul(n as u64),
        )
    }

    fn less(&self, other: &(u64, u64)) -> bool {
        self < other
    }

    fn fits(&self) -> bool {
        self.0.saturating_add(self.1) < COST_LIMIT
    }
}
