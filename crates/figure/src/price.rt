// Counts of penalties, priced in a tally.
ghost use Rattle.std.specs.Prelude.{◌≡◌, ℕ, ◌^◌, ◌<◌};
ghost use Rattle.records.specs.declared.parts.Header.{Header as HeaderOf};
ghost use Rattle.records.specs.declared.parts.Block.{Block as BlockOf};
ghost use Rattle.figure.specs.Price.{block_cycles, stay_cycles, block_pair, stay_pair};

use records::parts::*;
use run::fetches::entry_cycles;
use tally::Tally;

// What a count costs.
pub trait Price: Tally {
    ghost of_block: { HeaderOf → BlockOf → ℕ → Self };

    ghost of_stay: { HeaderOf → ℕ → Self };

    // An entry of a block, when so many of its fetches pay.
    fn block(header: Header, block: Block, paying: u32) -> Self
        requires { Self.size (of_block header block paying) < 2 ^ 32 }
        ensures { result ≡ of_block header block paying };

    // A stay in a loop, when so many lines are charged there.
    fn stay(header: Header, lines: u32) -> Self
        ensures { result ≡ of_stay header lines };
}

impl Price for u64 {
    ghost of_block = { block_cycles };

    ghost of_stay = { stay_cycles };

    fn block(header: Header, block: Block, paying: u32) -> u64 {
        entry_cycles(header, block, paying)
    }

    fn stay(header: Header, lines: u32) -> u64 {
        header.penalty as u64 * lines as u64
    }
}

impl Price for (u64, u64) {
    ghost of_block = { block_pair };

    ghost of_stay = { stay_pair };

    fn block(_header: Header, block: Block, paying: u32) -> (u64, u64) {
        (paying as u64, block.fetches as u64)
    }

    fn stay(_header: Header, lines: u32) -> (u64, u64) {
        (lines as u64, 0)
    }
}
