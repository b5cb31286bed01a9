// From the bytes of a text to a task record, or to what is wrong with them.
#![tactic(auto)]

ghost use Rattle.reader.specs.Parts.{ReadsHeader};
ghost use Rattle.reader.specs.Reading.{Reading};

mod entry;
pub mod error;
mod lines;
mod number;

use crate::error::*;
use crate::lines::Lines;
use records::Record;
use records::parts::*;
use std::alloc::Global;
use syntax::fault::*;

// The most bytes of a record's text.
pub const MOST_BYTES: usize = 16_384;

// Reads the lines before the blocks.
fn header(lines: &mut Lines) -> Result<Header, TextFault>
    ensures { ReadsHeader lines.old result lines.new }
{
    let line = lines.choice(b"line=", &[4, 8, 16, 32, 64])?;
    let slots = lines.choice(b"slots=", &[1, 2, 4, 8, 16, 32, 64])?;
    let hit = lines.bounded(b"hit=", 1, 255)?;
    let penalty = lines.bounded(b"penalty=", 0, 4_095)?;
    let window = lines.bounded(b"window=", 1, 99_999_999)?;
    let geometry = Geometry { line, slots };
    Ok(Header {
        geometry,
        hit,
        penalty,
        window,
    })
}

// The record whose text is `bytes`.
pub fn read(heap: Global, bytes: &[u8]) -> Result<Record, ReadError>
    ensures { Reading bytes.now result }
{
    if bytes.len() > MOST_BYTES {
        return Err(ReadError::Fault(TextFault {
            rule: TextRule::TooLong,
            place: 0,
        }));
    }
    let mut lines = Lines::new(bytes);
    let header = header(&mut lines)?;
    // A block's line does not depend on how many blocks there are.
    let blocks = lines.counted(heap, b"blocks=", 1, 128, 0)?;
    let n = blocks.len();
    let loops = lines.counted(heap, b"loops=", 0, 15, n)?;
    let edges = lines.counted(heap, b"edges=", 0, 512, n)?;
    lines.end()?;
    Ok(Record {
        header,
        blocks,
        loops,
        edges,
    })
}
