// The entries of a record's lists.
ghost use Rattle.std.specs.Prelude.{ℕ, ◌≤◌, Bool, List, IfOk, vec_len};
ghost use Rattle.records.specs.Layout.{single, between, block_form, loop_form, edge_form};
ghost use Rattle.reader.specs.Lines.{form, ReadsBody, ReadsLine};
ghost use Rattle.reader.specs.Parts.{ReadsEntries, ReadsCounted};

use crate::error::*;
use crate::lines::Lines;
use records::entry::Entry;
use records::parts::*;
use std::alloc::Global;
use syntax::fault::*;
use syntax::fields::*;

// An entry that is read from its line.
pub(crate) trait Parse<const N: usize>: Entry<N> {
    // The ranges of its numbers, in a task of so many blocks.
    ghost ranges: { ℕ → List (ℕ → Bool) };

    // The entry with the numbers `body`, in a task of `blocks` blocks.
    fn parse(body: &[u8], blocks: usize) -> Result<Self, TextRule>
        ensures { ReadsBody (ranges blocks) Self.numbers body.now result };
}

impl Parse<3> for Block {
    ghost ranges = { λ _. block_form.ranges };

    fn parse(body: &[u8], _blocks: usize) -> Result<Block, TextRule> {
        let (address, fetches, cycles) = triple(body).ok_or(TextRule::Number)?;
        if address > 16_777_215 || !(1..=64).contains(&fetches) || cycles > 65_535 {
            return Err(TextRule::Range);
        }
        Ok(Block {
            address,
            fetches,
            cycles,
        })
    }
}

impl Parse<3> for Loop {
    ghost ranges = { λ n. (loop_form n).ranges };

    fn parse(body: &[u8], blocks: usize) -> Result<Loop, TextRule> {
        let (header, last, limit) = triple(body).ok_or(TextRule::Number)?;
        let header = header as usize;
        let last = last as usize;
        // The greatest number of a block.
        let top = blocks.saturating_sub(1);
        if !(1..=top).contains(&header) || last > top || !(1..=65_535).contains(&limit) {
            return Err(TextRule::Range);
        }
        Ok(Loop {
            header,
            last,
            limit,
        })
    }
}

impl Parse<2> for Edge {
    ghost ranges = { λ n. (edge_form n).ranges };

    fn parse(body: &[u8], blocks: usize) -> Result<Edge, TextRule> {
        let (from, to) = pair(body).ok_or(TextRule::Number)?;
        let from = from as usize;
        let to = to as usize;
        // The greatest number of a block.
        let top = blocks.saturating_sub(1);
        if from > top || to > top {
            return Err(TextRule::Range);
        }
        Ok(Edge { from, to })
    }
}

impl Lines<'_> {
    // Reads a line with an entry.
    fn entry<const N: usize, E: Parse<N>>(&mut self, blocks: usize) -> Result<E, TextFault>
        ensures { ReadsLine (form E.tag (E.ranges blocks)) E.numbers self.old result self.new }
    {
        self.line(
            E::key(),
            |body| -> Result<E, TextRule>
                ensures { ReadsBody (E.ranges blocks) E.numbers body.now result }
            { E::parse(body, blocks) },
        )
    }

    // Reads `count` lines with an entry each.
    fn entries<const N: usize, E: Parse<N>>(
        &mut self,
        heap: Global,
        count: u32,
        blocks: usize,
    ) -> Result<Vec<E>, ReadError>
        ensures { ReadsEntries count (form E.tag (E.ranges blocks)) E.numbers self.old result self.new }
    {
        // A loop: `try_collect` needs a closure with its result type and clause, and `ReadError` from `AllocError` too.
        let mut all = Vec::new(heap);
        for _ in 0..count {
            all.push(self.entry(blocks)?)?;
        }
        Ok(all)
    }

    // Reads a line with a count from `low` to `high`, and so many entries.
    pub(crate) fn counted<const N: usize, E: Parse<N>>(
        &mut self,
        heap: Global,
        key: &[u8],
        low: u32,
        high: u32,
        blocks: usize,
    ) -> Result<Vec<E>, ReadError>
        ensures reads { ReadsCounted (single key.now (between low high)) (form E.tag (E.ranges blocks)) E.numbers self.old result self.new }
        ensures few { IfOk result (λ entries. vec_len entries ≤ high) }
    {
        let count = self.bounded(key, low, high)?;
        self.entries(heap, count, blocks)
    }
}
