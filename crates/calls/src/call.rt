// The calls on a bench, by name.
ghost use Rattle.std.specs.Prelude.{◌≡◌};
ghost use Rattle.run.specs.Open.{run_of};
ghost use Rattle.calls.specs.Standing.{standing};

use run::OpenWalk;

#[derive(Clone, Copy)]
pub enum Call {
    Load,
    Examine,
    Start,
    Step,
    Close,
    Write,
    Figure,
    Ask,
    List,
    Stand,
}

// Where an open walk stands, and what it has counted: what a bench shows of it, without its cache and its rounds.
#[derive(Clone, Copy)]
pub struct Standing {
    pub block: usize,
    pub cycles: u64,
    pub misses: u64,
    pub fetches: u64,
}

impl From<&OpenWalk> for Standing {
    ghost from_gives = { λ w s. s ≡ standing (run_of w.now) };

    fn from(walk: &OpenWalk) -> Standing {
        // The counts one by one: they are fields of the walk, and no struct holds them without it.
        Standing {
            block: walk.block,
            cycles: walk.cycles,
            misses: walk.misses,
            fetches: walk.fetches,
        }
    }
}
