//! Tests of the top call over files and sinks in memory: what happens where a device fails. What the process shows of the
//! program stands in tools/runs.txt.
#![tactic(auto)]

#[cfg(test)]
mod tests;
