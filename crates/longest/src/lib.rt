// The greatest charge of a walk within the limits, and a search that finds it.
#![tactic(auto)]

ghost use Rattle.std.specs.Prelude.{◌≡◌, if◌then◌else◌, nat_eq};
ghost use Rattle.records.specs.Layout.{InFormat};
ghost use Rattle.task.specs.Rules.{Sound};
ghost use Rattle.tally.specs.Kinds.{cycles};
ghost use Rattle.longest.specs.Charge.{Greatest};
ghost use Rattle.longest.specs.Claim.{Finds};
ghost use Rattle.longest.specs.Search.{by_round, none_yet, cell_of};
ghost use Rattle.longest.specs.Sizes.{StaysSmall};
ghost use Rattle.longest.specs.Nine.{nine, by_fetches};

use tally::Tally;

// What is charged in a first and in a later round of a loop.
#[derive(Clone, Copy)]
pub struct ByRound<T> {
    pub first: T,
    pub later: T,
}

impl<T: Tally> ByRound<T> {
    // The same charge in both kinds of round.
    pub fn both(charge: T) -> ByRound<T>
        ensures { result ≡ by_round charge charge }
    {
        ByRound {
            first: charge,
            later: charge,
        }
    }
}

// What a search holds of a block.
#[derive(Clone, Copy)]
pub struct Cell<T> {
    // The header of the outermost loop around the block that is done, or the block itself: a number,
    // since the cells are lent as a slice.
    pub anchor: usize,
    // The greatest charge with which the present round reaches this block.
    pub reach: ByRound<T>,
    // The greatest charge from the entry of the anchor to the end of this block.
    pub weight: ByRound<T>,
}

impl<T: Tally> Cell<T> {
    // A cell before any search.
    pub fn blank() -> Cell<T>
        ensures { result ≡ cell_of 0 (none_yet T.ops) (none_yet T.ops) }
    {
        let none = ByRound::both(T::zero());
        Cell {
            anchor: 0,
            reach: none,
            weight: none,
        }
    }
}

// The search finds the greatest charge, whatever the tally, and where every cost fits, no sum is
// large.
pub fn finds<T: Tally>()
    ensures greatest { Finds T.ops }
    ensures small { StaysSmall T.ops T.size }
{}

// The worked task is in format and sound, and a walk within the limits has at most 227 fetches.
// A thousand more for each stay in a named loop counts one in the outer and ten in each inner loop.
pub fn worked()
    ensures format { InFormat nine }
    ensures sound { Sound nine }
    ensures fetches { Greatest cycles (by_fetches (λ _. 0)) nine 227 }
    ensures stays { Greatest cycles (by_fetches (λ i. (if nat_eq i 0 then 0 else 1000))) nine 21227 }
{}
