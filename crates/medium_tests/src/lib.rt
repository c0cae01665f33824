//! Tests of one bus by its calls, as a world makes them: what no play reaches.
#![tactic(auto)]

#[cfg(test)]
mod tests;
