// Walks through a task, and the stays and rounds of its loops on them.
#![tactic(auto)]

pub mod loops;
