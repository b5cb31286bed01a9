// A record is held to the rules, one after the other.
ghost use Rattle.std.specs.Prelude.{◌≡◌, OnOk, IfOk, MatchResult};
ghost use Rattle.std.specs.Result.{result_err};
ghost use Rattle.records.specs.View.{contents};
ghost use Rattle.task.specs.Laws.{Laws};
ghost use Rattle.task.specs.Vetted.{FirstFault, OnlyFault, Vetted};
ghost use Rattle.task.specs.View.{task_contents};

use crate::fault::GraphRule::*;
use crate::fault::{GraphFault, GraphRule};
use crate::{Task, blocks, edges, loops};
use records::Record;
use records::parts::*;

// Refuses the lowest place at which the rule is broken, if there is one.
fn held(rule: GraphRule, broken: Option<usize>) -> Result<(), GraphFault>
    ensures { MatchResult result (λ _. broken ≡ None)
        (λ fault. (fault.rule ≡ rule) × (broken ≡ Some fault.place)) }
{
    match broken {
        Some(place) => Err(GraphFault { rule, place }),
        None => Ok(()),
    }
}

// Holds the record to each rule in turn, up to the first that it breaks, which refuses it at its lowest place.
fn vet(record: &Record) -> Result<(), GraphFault>
    ensures first { FirstFault (contents «record».now) (result_err result) }
    ensures only { OnlyFault (contents «record».now) (result_err result) }
    ensures laws { OnOk result (Laws (contents «record».now)) }
{
    let blocks: &[Block] = &record.blocks;
    let loops: &[Loop] = &record.loops;
    let edges: &[Edge] = &record.edges;
    // Line by line: a list of what each check found would run all of them, and a list of the rules would need a match for
    // their checks.
    held(LoopOrder, loops::first_disordered(loops))?;
    held(Depth, loops::first_too_deep(blocks.len(), loops))?;
    held(LimitProduct, loops::first_over_limit(blocks.len(), loops))?;
    held(EdgeOrder, edges::first_out_of_order(edges))?;
    held(BackEdge, edges::first_stray_back_edge(loops, edges))?;
    held(LoopEntry, edges::first_aside_entry(loops, edges))?;
    held(Unreached, blocks::first_unreached(blocks.len(), edges))?;
    held(NoBackEdge, loops::first_without_back_edge(loops, edges))?;
    held(TooManyFetches, blocks::too_many_fetches(blocks))?;
    held(Address, blocks::first_misplaced(blocks))?;
    Ok(())
}

impl Task {
    // The task with this record, or the first rule that the record breaks.
    pub fn new(record: Record) -> Result<Task, GraphFault>
        ensures outcome { Vetted «record» result }
        ensures only { OnlyFault (contents «record») (result_err result) }
        ensures laws { IfOk result (λ t. Laws (task_contents t)) }
    {
        vet(&record)?;
        Ok(Task { record })
    }
}
