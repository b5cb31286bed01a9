// What is counted of a task's table of categories.
ghost use Rattle.std.specs.Prelude.{◌≡◌, ◌<◌, true, [], ◌∷◌, map, length, take, drop, IfOk, OnOk};
ghost use Rattle.std.specs.List.{range_with_len};
ghost use Rattle.task.specs.Graph.{loop_at, within};
ghost use Rattle.task.specs.View.{task_contents};
ghost use Rattle.walks.specs.Walk.{all_loops};
ghost use Rattle.categories.specs.Category.{fetches_of};
ghost use Rattle.categories.specs.Costs.{distinct, charged_lines, charged_at};
ghost use Rattle.marks.specs.Table.{row_of};
ghost use Rattle.figure.specs.Figure.{RowForEach};
ghost use Rattle.figure.specs.Row.{paying_both};

use crate::lines::add_block;
use crate::rows::paying;
use categories::category::Category;
use longest::ByRound;
use marks::places::{fetches_before, level_of};
use std::alloc::{AllocError, Global};
use task::Task;
use walks::loops::loop_at;

// A task, and the categories of its fetches.
#[derive(Clone, Copy)]
pub(crate) struct MarkedTask<'a> {
    pub(crate) task: &'a Task,
    pub(crate) table: &'a [[Category; 8]],
    ghost rows: { RowForEach (task_contents task.now) table.now },
}

impl<'a> MarkedTask<'a> {
    ghost use Rattle.figure.specs.Marked.{contents, marks};

    // The rows of block b.
    fn rows_of(&self, b: usize) -> &'a [[Category; 8]]
        requires { b < length (contents self.now).blocks }
        ensures { result.now ≡ take (fetches_of (contents self.now) b) (drop (row_of (contents self.now) b 0) self.now.table.now) }
    {
        // That the task has the block is a clause, here and below, since the block is a parameter.
        let first = fetches_before(self.task, b);
        &self.table[first..first + self.task.record.blocks[b].fetches as usize]
    }

    // How many fetches of block b pay, in each kind of round of its innermost loop.
    fn paying_in(&self, b: usize) -> ByRound<u32>
        requires { b < length (contents self.now).blocks }
        ensures { result ≡ paying_both (contents self.now) (marks self.now) b }
    {
        paying(self.rows_of(b))
    }

    // The lines of block b that are charged at loop i are added, each once.
    fn add_charged(&self, lines: &mut Vec<u32>, i: usize, b: usize) -> Result<(), AllocError>
        requires number { i < length (all_loops (contents self.now)) }
        requires inside { within (loop_at (all_loops (contents self.now)) i) b ≡ true }
        requires block { b < length (contents self.now).blocks }
        ensures { OnOk result (lines.new.items ≡ distinct lines.old.items (charged_lines (contents self.now) (marks self.now) i (b ∷ []))) }
    {
        let level = level_of(self.task, i, b);
        let depth = level_of(self.task, 0, b) + 1;
        add_block(
            lines,
            self.rows_of(b),
            self.task.record.blocks[b],
            self.task.record.header.geometry,
            level,
            depth,
        )
    }

    // How many lines are charged at loop i.
    fn charged_at(&self, heap: Global, i: usize) -> Result<u32, AllocError>
        requires { i < length (all_loops (contents self.now)) }
        ensures { IfOk result (λ n. n ≡ length (charged_at (contents self.now) (marks self.now) i)) }
    {
        // By number, since rows and level of a block are found by it.
        let l = loop_at(self.task, i);
        let end = l.last + 1;
        let mut lines = Vec::new(heap);
        for b in l.header..end {
            self.add_charged(&mut lines, i, b)?;
        }
        Ok(lines.len() as u32)
    }

    // How many fetches of each block pay, in each kind of round of its innermost loop.
    pub(crate) fn paying_by_block(&self, heap: Global) -> Result<Vec<ByRound<u32>>, AllocError>
        ensures { IfOk result (λ v. v.items ≡ map (paying_both (contents self.now) (marks self.now)) (range_with_len 0 (length (contents self.now).blocks))) }
    {
        let blocks = self.task.record.blocks.len();
        (0..blocks).map(|b| self.paying_in(b)).collect(heap)
    }

    // How many lines are charged at each loop, the task loop first.
    pub(crate) fn charged_by_loop(&self, heap: Global) -> Result<Vec<u32>, AllocError>
        ensures { IfOk result (λ v. v.items ≡ map (λ i. length (charged_at (contents self.now) (marks self.now) i)) (range_with_len 0 (length (all_loops (contents self.now))))) }
    {
        // A loop: with `try_collect` it stayed unproved that the list has each loop's count, since a count
        // that can run out of memory is no function of its loop.
        let mut counts = Vec::new(heap);
        let end = self.task.record.loops.len() + 1;
        for i in 0..end {
            counts.push(self.charged_at(heap, i)?)?;
        }
        Ok(counts)
    }
}
