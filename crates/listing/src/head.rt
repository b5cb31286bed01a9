// What stands before the fetches.
ghost use Rattle.std.specs.Prelude.{◌≡◌, ℕ, ◌-◌, ◌^◌, ◌<◌};
ghost use Rattle.task.specs.View.{task_contents};
ghost use Rattle.examine.specs.Findings.{shown};
ghost use Rattle.writer.specs.Lays.{Appends};
ghost use Rattle.listing.specs.Load.{load_of, Nearest};
ghost use Rattle.listing.specs.Text.{fits_text, head_text};

use examine::examination::Examination;
use task::Task;
use writer::text::Text;

// A load is the nearest whole number of thousandths, where it has 64 bits.
pub fn load_is_nearest()
    ensures { (figure window : ℕ) → 0 < window → load_of figure window < 2 ^ 64 - 1 → Nearest figure window (load_of figure window) }
{}

// How many thousandths of the window the figure is.
pub fn load_of(figure: u64, window: u32) -> u64
    ensures { result ≡ load_of figure window }
{
    // The window of a record is never 0; this answers as the definition does, where a quotient by 0 is 0.
    if window == 0 {
        return 0;
    }
    // A half more, and the rest dropped.
    let load = (2 * (1000 * figure as u128) + window as u128) / (2 * window as u128);
    load.min(u64::MAX as u128) as u64
}

// The word for whether the figure is within the window.
fn fits_word(figure: u64, window: u32) -> &'static str
    ensures { result.now ≡ fits_text figure window }
{
    if figure <= window as u64 { "yes" } else { "no" }
}

// Lays the lines before the fetches.
pub(crate) fn lay_head(text: &mut Text, task: &Task, found: &Examination)
    ensures { Appends (head_text (task_contents task.now) (shown (task_contents task.now) found.now)) text.old text.new }
{
    let window = task.record.header.window;
    let figure = found.figures.cycles;
    let (charged, fetches) = found.figures.greatest;
    text.lay_line(b"figure=", &[figure]);
    text.lay_bytes(b"fits=");
    text.lay_bytes(fits_word(figure, window).as_bytes());
    text.lay_bytes(b"\n");
    text.lay_line(b"load=", &[load_of(figure, window)]);
    text.lay_line(b"charged=", &[charged]);
    text.lay_line(b"fetches=", &[fetches]);
    text.lay_line(b"passes=", &[found.passes as u64]);
}
