// The lines of a record's lists.
ghost use Rattle.std.specs.Prelude.{◌≡◌, ℕ, ◌≤◌, List, codes};
ghost use Rattle.std.proofs.Common.{lit≤};
ghost use Rattle.records.specs.Layout.{block_row, loop_row, edge_row};

use crate::parts::*;

// What has a line of its own in a list: a key, and N numbers.
pub trait Entry<const N: usize>: Copy {
    ghost tag: { List ℕ };

    ghost numbers: { Self → List ℕ };

    // The key of the line.
    fn key() -> &'static [u8]
        ensures { result.now ≡ tag };

    // Its numbers.
    fn fields(&self) -> [u64; N]
        ensures { result ≡ numbers self.now };

    ghost few: { N ≤ 3 };
}

impl Entry<3> for Block {
    ghost tag = { codes "block=" };

    ghost numbers = { block_row };

    fn key() -> &'static [u8] {
        b"block="
    }

    fn fields(&self) -> [u64; 3] {
        [self.address as u64, self.fetches as u64, self.cycles as u64]
    }

    ghost few = { lit≤ tt };
}

impl Entry<3> for Loop {
    ghost tag = { codes "loop=" };

    ghost numbers = { loop_row };

    fn key() -> &'static [u8] {
        b"loop="
    }

    fn fields(&self) -> [u64; 3] {
        [self.header as u64, self.last as u64, self.limit as u64]
    }

    ghost few = { lit≤ tt };
}

impl Entry<2> for Edge {
    ghost tag = { codes "edge=" };

    ghost numbers = { edge_row };

    fn key() -> &'static [u8] {
        b"edge="
    }

    fn fields(&self) -> [u64; 2] {
        [self.from as u64, self.to as u64]
    }

    ghost few = { lit≤ tt };
}
