// A worked list of calls.
ghost use Rattle.std.specs.Prelude.{◌≤◌, List, length};
ghost use Rattle.task.specs.Example.{example};
ghost use Rattle.examine.specs.Findings.{findings};
ghost use Rattle.calls.specs.Example.{Worked};

use cache_state::CacheState;
use facts::Facts;

// With every kind of cache state the calls on the worked record come out as their contracts say, up to an open walk.
pub fn example_history<K: CacheState>()
    ensures { (work after : List K) → 8 ≤ length work → Worked K.kind K.fetched work after (findings K.kind K.fetched example) }
{}
