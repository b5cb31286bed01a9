// The search compared with a second way: every walk within the limits, one after the other.
#![tactic(auto)]

pub mod every_walk;
#[cfg(test)]
mod tests;
