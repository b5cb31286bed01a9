// A task whose graph keeps every rule.
#![tactic(auto)]

ghost use Rattle.records.specs.View.{contents};
ghost use Rattle.task.specs.Rules.{Sound};

mod blocks;
mod edges;
pub mod example;
pub mod fault;
pub mod loops;
mod vet;

use records::Record;

// A record whose graph breaks no rule.
#[derive(Drop)]
pub struct Task {
    pub record: Record,
    ghost sound: { Sound (contents «record») },
}
