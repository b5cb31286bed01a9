// The greatest charge, in any tally that counts can be priced in.
ghost use Rattle.std.specs.Prelude.{◌≡◌, ℕ, All, map, length, IfOk};
ghost use Rattle.std.specs.List.{zip};
ghost use Rattle.task.specs.View.{task_contents};
ghost use Rattle.walks.specs.Walk.{all_loops};
ghost use Rattle.longest.specs.declared.ByRound.{ByRound as ByRoundOf};
ghost use Rattle.longest.specs.Search.{figure_of};
ghost use Rattle.longest.specs.Sizes.{Cheap};
ghost use Rattle.search.specs.Outcome.{Fits};
ghost use Rattle.figure.specs.Price.{block_priced, priced};

use crate::price::Price;
use longest::{ByRound, Cell};
use records::parts::Header;
use search::greatest_charge;
use std::alloc::{AllocError, Global};
use tally::Tally;
use task::Task;

// Of the counts of each block, those of the kind of round that `kind` picks.
fn counts_in<F: Fn(&ByRound<u32>) -> u32>(
    heap: Global,
    paying: &[ByRound<u32>],
    kind: F,
) -> Result<Vec<u32>, AllocError>
    requires { F.IsAlwaysCallable kind }
    ensures { (picked : ByRoundOf ℕ → ℕ) → ((x : _) (n : ℕ) → F.post kind x n → n ≡ picked x.now) → IfOk result (λ v. v.items ≡ map picked paying.now) }
{
    paying.iter().map(kind).collect(heap)
}

// The price of each block in one kind of round, by how many of its fetches pay there.
fn block_costs<T: Price>(heap: Global, task: &Task, paying: &[u32]) -> Result<Vec<T>, AllocError>
    requires { All (λ p. Fits T.size (block_priced T.of_block (task_contents task.now).header p)) (zip (task_contents task.now).blocks paying.now) }
    ensures { IfOk result (λ v. v.items ≡ map (block_priced T.of_block (task_contents task.now).header) (zip (task_contents task.now).blocks paying.now)) }
{
    let header = task.record.header;
    task.record
        .blocks
        .iter()
        .zip(paying)
        .map(|(block, paying)| T::block(header, *block, *paying))
        .collect(heap)
}

// The price of a stay in each loop, by how many lines are charged there.
fn stay_costs<T: Price>(heap: Global, header: Header, lines: &[u32]) -> Result<Vec<T>, AllocError>
    ensures { IfOk result (λ v. v.items ≡ map (T.of_stay header) lines.now) }
{
    lines
        .iter()
        .map(|count| T::stay(header, *count))
        .collect(heap)
}

// Cells for a search to work in.
fn blank_cells<T: Tally>(heap: Global, count: usize) -> Result<Vec<Cell<T>>, AllocError>
    ensures { IfOk result (λ v. length v.items ≡ count) }
{
    Ok(vec![in heap; Cell::blank(); count]?)
}

// The greatest charge of a walk within the limits, by what is counted of each block and each stay.
pub(crate) fn greatest<T: Price>(
    heap: Global,
    task: &Task,
    paying: &[ByRound<u32>],
    lines: &[u32],
) -> Result<T, AllocError>
    requires blocks { length paying.now ≡ length (task_contents task.now).blocks }
    requires loops { length lines.now ≡ length (all_loops (task_contents task.now)) }
    requires cheap { Cheap T.size (priced T.of_block T.of_stay (task_contents task.now) paying.now lines.now) (task_contents task.now) }
    ensures { IfOk result (λ t. t ≡ figure_of T.ops (priced T.of_block T.of_stay (task_contents task.now) paying.now lines.now) (task_contents task.now)) }
{
    let in_first = counts_in(heap, paying, |counts| counts.first)?;
    let in_later = counts_in(heap, paying, |counts| counts.later)?;
    let first = block_costs(heap, task, &in_first)?;
    let later = block_costs(heap, task, &in_later)?;
    let stays = stay_costs(heap, task.record.header, lines)?;
    let mut cells = blank_cells(heap, paying.len())?;
    Ok(greatest_charge(task, &first, &later, &stays, &mut cells).unwrap())
}
