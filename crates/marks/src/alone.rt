// Whether a line is the only one of its slot that a loop fetches.
ghost use Rattle.std.specs.Prelude.{◌≡◌};
ghost use Rattle.std.specs.List.{list_all};
ghost use Rattle.task.specs.View.{task_contents};
ghost use Rattle.categories.specs.Category.{apart, alone};
ghost use Rattle.marks.specs.Steps.{given_lines};

use crate::place::Place;
use cache_state::lines::{program_line, slot_of};
use records::parts::*;

// Whether two lines have different slots, or are one line.
fn is_apart(line: u32, other: u32, geometry: Geometry) -> bool
    ensures { result ≡ apart geometry line other }
{
    slot_of(other, geometry) != slot_of(line, geometry) || other == line
}

// Whether no fetch of the block has another line of this line's slot.
fn is_alone_in_block(block: &Block, line: u32, geometry: Geometry) -> bool
    ensures { result ≡ list_all (apart geometry line) (given_lines geometry block.now) }
{
    (0..block.fetches)
        .map(|fetch| program_line(block, fetch, geometry))
        .all(|other| is_apart(line, other, geometry))
}

// Whether no fetch in the place's loop, those in loops inside it included, has another line of this line's slot.
pub(crate) fn is_alone(place: &Place, line: u32) -> bool
    ensures { result ≡ alone (task_contents place.now.task.now) place.now.range line }
{
    let geometry = place.task.record.header.geometry;
    // A slice, since `skip` goes over the blocks before the loop one by one.
    let blocks = &place.task.record.blocks.as_slice()[place.range.header..place.range.last + 1];
    blocks
        .iter()
        .all(|block| is_alone_in_block(block, line, geometry))
}
