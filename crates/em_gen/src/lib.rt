//! Workloads, each made from a number.
#![tactic(auto)]

mod draws;
mod making;
#[cfg(test)]
mod tests;
mod texts;

pub use making::make;
