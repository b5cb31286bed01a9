// The figures of a task, from the categories of its fetches.
#![tactic(auto)]

ghost use Rattle.std.specs.Prelude.{IfOk, Decides};
ghost use Rattle.task.specs.View.{task_contents};
ghost use Rattle.figure.specs.Figure.{RowForEach, FiguresBy, FiguresOf};

mod charge;
mod counts;
mod lines;
pub mod outcome;
mod price;
mod rows;

use crate::charge::greatest;
use crate::counts::MarkedTask;
use crate::outcome::*;
use categories::category::Category;
use marks::places::total_fetches;
use std::alloc::{AllocError, Global};
use task::Task;

// Whether the table has a row for each fetch.
fn has_row_for_each(task: &Task, table: &[[Category; 8]]) -> bool
    ensures { Decides result (RowForEach (task_contents task.now) table.now) }
{
    table.len() == total_fetches(task)
}

// The figures by the categories of the fetches.
fn figures_by(heap: Global, marked: &MarkedTask<'_>) -> Result<Figures, AllocError>
    ensures { IfOk result (λ f. FiguresBy (task_contents marked.now.task.now) marked.now.table.now f) }
{
    let paying = marked.paying_by_block(heap)?;
    let lines = marked.charged_by_loop(heap)?;
    let cycles = greatest::<u64>(heap, marked.task, &paying, &lines)?;
    let pair = greatest::<(u64, u64)>(heap, marked.task, &paying, &lines)?;
    Ok(Figures {
        cycles,
        greatest: pair,
    })
}

// The figures of a task by a table of the categories of its fetches, a row for each fetch.
pub fn figures(heap: Global, task: &Task, table: &[[Category; 8]]) -> Result<Figures, FigureError>
    ensures { FiguresOf (task_contents task.now) table.now result }
{
    if !has_row_for_each(task, table) {
        return Err(FigureError::TableLength);
    }
    Ok(figures_by(heap, &MarkedTask { task, table })?)
}
