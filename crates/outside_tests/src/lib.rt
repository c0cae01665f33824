//! Tests of shelves and sinks: those in memory, and those over the files and streams of the system.
#![tactic(auto)]

#[cfg(test)]
mod tests;
