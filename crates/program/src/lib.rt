// What the programs share: what they reach outside by, their arguments and standard streams, what they say of a failure, the files that they read and write, and the status that their shell
// commands end with.
#![tactic(auto)]

pub mod arguments;
pub mod floats;
pub mod input;
pub mod kind;
pub mod message;
pub mod output;
pub mod replacement;
pub mod streams;
pub mod system;
pub mod wave;
