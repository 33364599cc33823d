// The bench: a log and its image, driven by the lines that come in. Each line is answered before the next is waited for.
//
// The state and the image are what the line before left; what a line says is the library script's, what it does is logrun_calls', and
// how an answer is spelled is logrun_show's. Here is only what stands between them.

#![tactic(auto)]

mod desk;
mod input;
mod show;

pub use input::drive;
use steps::Log;

// The state, and how many bytes the image has: the first so many of the space that goes with it.
#[derive(Clone, Copy)]
pub struct Bench {
    pub log: Log,
    pub len: usize,
}
