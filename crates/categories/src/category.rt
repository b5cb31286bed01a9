// What is known of a fetch at a loop around its block.
ghost use Rattle.std.specs.Prelude.{◌≡◌};
ghost use Rattle.categories.specs.Letters.{letters_of};

#[derive(Clone, Copy, PartialEq, Eq)]
pub enum Category {
    // It never misses.
    AlwaysHit,
    // It misses at most at its first fetch in each stay.
    FirstMiss,
    // It hits at its first fetch in each stay.
    FirstHit,
    // Nothing is known: it is charged as if it always missed.
    AlwaysMiss,
}

impl Category {
    // The category as it is written in a report.
    pub fn letters(&self) -> &'static str
        ensures { result.now ≡ letters_of self.now }
    {
        // Not Display: a report is laid on byte by byte, without formatting.
        match self {
            Category::AlwaysHit => "h",
            Category::FirstMiss => "fm",
            Category::FirstHit => "fh",
            Category::AlwaysMiss => "m",
        }
    }
}
