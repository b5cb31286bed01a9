// The bench: a person loads a task, examines it, walks it block by block, and puts questions.
#![tactic(auto)]

pub mod bench;
mod stage;
