//! What the text of a play file says, as definitions that other crates cite. There is no code here.
#![tactic(auto)]
