//! Calls of the kernel and of its parts on applications that are loaded, with answers that were worked out by hand, and
//! workloads that are loaded. Tests alone.
#![tactic(auto)]

#[cfg(test)]
mod answers;
#[cfg(test)]
mod steps;
#[cfg(test)]
mod workloads;
