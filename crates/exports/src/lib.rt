// Functions under names that C and Rust can call, for the comparison with the Rust and for the benches: the leaves, the
// instrument's reader, test and writer, and the session's calls in loops. What a program plays with is in the crate gingerfile.
#![tactic(auto)]

pub mod calls;
pub mod leaves;
pub mod record;
