// The lines that are charged, each once.
ghost use Rattle.std.specs.Prelude.{◌≡◌, ◌<◌, ◌≤◌, [], map, length, OnOk, slice_index_or};
ghost use Rattle.std.specs.List.{range_with_len};
ghost use Rattle.cache_state.specs.Cache.{fetch_line};
ghost use Rattle.categories.specs.Costs.{passing, added, distinct};
ghost use Rattle.figure.specs.Row.{charged_row};

use crate::rows::is_charged;
use cache_state::lines::program_line;
use categories::category::Category;
use records::parts::*;
use std::alloc::AllocError;

// The line is added if it is not one of them.
fn add_line(lines: &mut Vec<u32>, line: u32) -> Result<(), AllocError>
    ensures { OnOk result (lines.new.items ≡ added lines.old.items line) }
{
    // A list, as in the definition: of a set it would have to be shown apart that it has the same lines
    // and as many.
    if !lines.contains(&line) {
        lines.push(line)?;
    }
    Ok(())
}

// The lines of a block's fetches that are charged at the level are added, each once; the block has these rows.
pub(crate) fn add_block(
    lines: &mut Vec<u32>,
    rows: &[[Category; 8]],
    block: Block,
    geometry: Geometry,
    level: usize,
    depth: usize,
) -> Result<(), AllocError>
    requires outer { level < depth }
    requires deep { depth ≤ 8 }
    requires short { length rows.now ≤ 64 }
    requires low { block.address ≤ 16777215 }
    ensures { OnOk result (lines.new.items ≡ distinct lines.old.items (map (fetch_line geometry block) (passing (λ j. charged_row level depth (slice_index_or rows.now j [])) (range_with_len 0 (length rows.now))))) }
{
    // A loop, since memory can run out at each line.
    for (fetch, row) in rows.iter().enumerate() {
        if is_charged(row, level, depth) {
            add_line(lines, program_line(&block, fetch as u32, geometry))?;
        }
    }
    Ok(())
}
