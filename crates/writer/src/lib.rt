// Writing the text of a record into a lent buffer. Nothing is allocated.
#![tactic(auto)]

ghost use Rattle.std.specs.Prelude.{ℕ, ◌^◌, ◌<◌, List, length};
ghost use Rattle.records.specs.Layout.{record_text};
ghost use Rattle.records.specs.View.{contents};
ghost use Rattle.writer.specs.Lays.{Appends};
ghost use Rattle.writer.specs.Parts.{header_text};
ghost use Rattle.writer.specs.Wrote.{Wrote};

mod rows;
pub mod text;

use crate::rows::lay_list;
use crate::text::Text;
use records::Record;
use records::parts::Header;

// The buffer is shorter than the text, which has `needed` bytes.
#[derive(Clone, Copy, PartialEq, Eq, Debug)]
pub struct TooShort {
    pub needed: usize,
}

// Writes the text of `record` to the front of `out`, and says how long it is. Where it does not fit, `out` stays as it is.
pub fn write(record: &Record, out: &mut [u8]) -> Result<usize, TooShort>
    ensures { Wrote (record_text (contents «record».now)) out.old result out.new }
{
    fill(out, |text| lay_record(record, text))
}

// Writes what `lay` lays to the front of `out`, and says how long it is. Where it does not fit, `out` stays as it is.
pub fn fill<F: Fn(&mut Text)>(out: &mut [u8], lay: F) -> Result<usize, TooShort>
    requires { F.IsAlwaysCallable lay }
    ensures { (text : List ℕ) → length text < 2 ^ 64 → ((old : _) (new : _) → F.post lay old tt new → Appends text old.now new.now) → Wrote text out.old result out.new }
{
    // Laid into an empty buffer, the text only tells where it ends.
    let mut measured = Text::new(&mut [], 0);
    lay(&mut measured);
    let needed = measured.end();
    if out.len() < needed {
        return Err(TooShort { needed });
    }
    let mut text = Text::new(out, 0);
    lay(&mut text);
    Ok(text.end())
}

// Lays the whole text.
fn lay_record(record: &Record, text: &mut Text)
    ensures { Appends (record_text (contents «record».now)) text.old text.new }
{
    lay_header(&record.header, text);
    lay_list(text, b"blocks=", &record.blocks);
    lay_list(text, b"loops=", &record.loops);
    lay_list(text, b"edges=", &record.edges);
}

// Lays the lines before the blocks.
fn lay_header(header: &Header, text: &mut Text)
    ensures { Appends (header_text header.now) text.old text.new }
{
    text.lay_line(b"line=", &[header.geometry.line as u64]);
    text.lay_line(b"slots=", &[header.geometry.slots as u64]);
    text.lay_line(b"hit=", &[header.hit as u64]);
    text.lay_line(b"penalty=", &[header.penalty as u64]);
    text.lay_line(b"window=", &[header.window as u64]);
}
