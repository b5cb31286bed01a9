// The calls on a bench: why they are refused, what each does, and what holds after every list of them.
#![tactic(auto)]

pub mod call;
pub mod example;
pub mod fault;
pub mod refusal;
pub mod stage;
