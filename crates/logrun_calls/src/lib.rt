// What the commands of a script do to a state and its image.

#![tactic(auto)]

mod calls;
mod commands;
mod settings;

pub use commands::{performed, zero_log};
