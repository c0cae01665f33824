//! What `bench call` is to do with a valid module: the words, the function that they call, and the line on how that
//! ends. There is no code here but the names of what is refused.
#![tactic(auto)]

mod fault;

pub use fault::CallFault;
