// The bytes of a text: numbers, lines, and what can be wrong with them.
#![tactic(auto)]

pub mod cut;
pub mod fault;
pub mod fields;
