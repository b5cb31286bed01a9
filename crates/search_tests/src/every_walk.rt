// The greatest charge by going through every walk within the limits.
use longest::ByRound;
use records::parts::{Edge, Loop};
use task::Task;
use task::loops::within;

// The rounds of the current stay in each named loop: an array, since each step goes on from a copy.
pub type Rounds = [u32; 15];

// What entries and stays cost: made-up numbers that differ from block to block and from loop to loop.
pub fn block_cost(block: usize) -> ByRound<u64> {
    ByRound {
        first: 10 + (block as u64 % 13 * 7) % 13,
        later: 5 + (block as u64 % 17 * 11) % 17,
    }
}

pub fn stay_cost(number: usize) -> u64 {
    100 + (number as u64 % 10 * 3) % 10
}

// The rounds once `block` is entered, or nothing if a loop's limit is passed.
fn entered(loops: &[Loop], rounds: &Rounds, block: usize) -> Option<Rounds> {
    // A loop, since it changes the rounds as it goes, and stops where a limit is passed.
    let mut next = *rounds;
    for (l, round) in loops.iter().zip(&mut next) {
        if !within(*l, block) {
            *round = 0;
        } else if block == l.header {
            *round = round.saturating_add(1);
            if *round > l.limit {
                return None;
            }
        }
    }
    Some(next)
}

// What entering `block` costs, with the rounds that it then has.
fn entry_cost(loops: &[Loop], rounds: &Rounds, block: usize) -> u64 {
    // A loop for the innermost loop and the stays at once: two chains would ask both questions of
    // each loop as well.
    let costs = block_cost(block);
    let mut cost = costs.first;
    let mut stays = 0u64;
    for (i, (l, round)) in loops.iter().zip(rounds).enumerate() {
        if within(*l, block) {
            // The last loop that has the block is the innermost.
            cost = if *round > 1 { costs.later } else { costs.first };
        }
        if block == l.header && *round == 1 {
            stays = stays.saturating_add(stay_cost(i.saturating_add(1)));
        }
    }
    cost.saturating_add(stays)
}

// The greatest charge of the walks that go on from `block`, at most `steps` further; `charge` is the charge so far.
fn greatest_from(task: &Task, block: usize, rounds: &Rounds, charge: u64, steps: u32) -> u64 {
    let mut greatest = charge;
    if steps == 0 {
        return greatest;
    }
    let loops = &task.record.loops;
    // A loop, since a call back from a closure gets no proof that it ends.
    for edge in &task.record.edges {
        let Edge { from, to } = *edge;
        if from != block {
            continue;
        }
        if let Some(next) = entered(loops, rounds, to) {
            let charge = charge.saturating_add(entry_cost(loops, &next, to));
            greatest = greatest.max(greatest_from(task, to, &next, charge, steps - 1));
        }
    }
    greatest
}

// The greatest charge of all walks within the limits of at most `steps` steps.
pub fn greatest(task: &Task, steps: u32) -> u64 {
    let start = stay_cost(0).saturating_add(block_cost(0).first);
    greatest_from(task, 0, &[0; 15], start, steps)
}
