// What an examination found, as text laid into a lent buffer. Nothing is allocated.
#![tactic(auto)]

ghost use Rattle.task.specs.View.{task_contents};
ghost use Rattle.examine.specs.Findings.{shown};
ghost use Rattle.writer.specs.Lays.{Lays, Appends};
ghost use Rattle.writer.specs.Wrote.{Wrote};
ghost use Rattle.listing.specs.Text.{block_text, report_text};

pub mod fetches;
pub mod head;

use crate::fetches::{lay_categories, lay_place};
use crate::head::lay_head;
use cache_state::lines::program_line;
use examine::examination::Examination;
use marks::places::{fetches_before, level_of};
use task::Task;
use writer::text::Text;
use writer::{TooShort, fill};

// Writes the lines of block `b`'s fetches to the front of `out`, and says how long they are. Where they do not fit,
// `out` stays as it is.
pub fn list(task: &Task, found: &Examination, b: usize, out: &mut [u8]) -> Result<usize, TooShort>
    ensures { Wrote (block_text (task_contents task.now) (shown (task_contents task.now) found.now) b) out.old result out.new }
{
    // Task and findings are two parameters here and below: the report has them apart, and the bench's struct of both
    // carries a fact that no listing asks for.
    fill(out, |text| lay_block(text, task, found, b))
}

// Lays the whole report at `at`, as far as it fits, and says where it ends.
pub fn lay_report(out: &mut [u8], at: usize, task: &Task, found: &Examination) -> usize
    ensures { Lays at (report_text (task_contents task.now) (shown (task_contents task.now) found.now)) out.old result out.new }
{
    let mut text = Text::new(out, at);
    lay_head(&mut text, task, found);
    // By number: it is printed, and the block's rows and levels are found by it.
    for b in 0..task.record.blocks.len() {
        lay_block(&mut text, task, found, b);
    }
    text.end()
}

// Lays the lines of block `b`'s fetches.
pub fn lay_block(text: &mut Text, task: &Task, found: &Examination, b: usize)
    ensures { Appends (block_text (task_contents task.now) (shown (task_contents task.now) found.now) b) text.old text.new }
{
    let Some(block) = task.record.blocks.get(b) else {
        return;
    };
    let first = fetches_before(task, b);
    // The named loops around the block, and the whole task.
    let levels = level_of(task, 0, b) + 1;
    // The fetches of a block are a count, and no list.
    for fetch in 0..block.fetches {
        let line = program_line(block, fetch, task.record.header.geometry);
        lay_place(text, b, fetch, line);
        lay_categories(text, &found.table, first + fetch as usize, levels);
        text.lay_bytes(b"\n");
    }
}
