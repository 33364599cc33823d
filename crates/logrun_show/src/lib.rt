// The answers of logrun: output is collected, and the state and the image are spelled as each answer ends.

#![tactic(auto)]

mod output;
mod show;

pub use output::Output;
pub use show::{field, hex, state};
