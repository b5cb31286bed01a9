// The category of each fetch at each loop around its block, and what walks are charged by them.
#![tactic(auto)]

ghost use Rattle.std.specs.Prelude.{ℕ};
ghost use Rattle.records.specs.Contents.{Contents};
ghost use Rattle.categories.specs.Category.{Marks};
ghost use Rattle.categories.specs.Meaning.{PassedBy, MeantBy, KeptBy, CoveredBy, ChargedOnce};

pub mod category;

use cache_state::CacheState;
use facts::Facts;

// A kind of facts about the blocks passed tells those that every walk to a block has passed.
pub fn passed_blocks_tell<G: Copy, P: Facts<G>>()
    ensures { (g : G) → PassedBy (P.kind g) }
{}

// Each fetch has at each loop around its block the first category that fits.
pub fn categories_mean<K: CacheState>()
    ensures { MeantBy K.kind K.fetched }
{}

// Every walk keeps the categories.
pub fn categories_are_kept<K: CacheState>()
    ensures { KeptBy K.kind K.fetched }
{}

// The charge of every walk covers its plain run.
pub fn charge_covers<K: CacheState>()
    ensures { CoveredBy K.kind K.fetched }
{}

// The lines charged at a loop are those of the first misses there that are none further out, each line once.
pub fn lines_charged_once()
    ensures { (c : Contents) (marks : Marks) (i : ℕ) → ChargedOnce c marks i }
{}
