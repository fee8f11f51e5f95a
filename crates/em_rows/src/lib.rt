//! Calls of the program that files of cases can't tell of: sources and sinks that hand over pieces and fail, and inputs as long
//! as they may be and longer. Tests alone.
#![tactic(auto)]

#[cfg(test)]
mod faults;
