// The bench compared with a second one, written from the rules alone, and its refusals on both sides of their edges.
#![tactic(auto)]

#[cfg(test)]
mod model;
#[cfg(test)]
mod pair;
#[cfg(test)]
mod plan;
#[cfg(test)]
mod samples;
#[cfg(test)]
mod tests;
#[cfg(test)]
mod walk;
