// What a command does to the state and the image.
ghost use Rattle.std.specs.Prelude.{◌≤◌, length};

use crate::{calls, settings};
use script::Command;
use state::State;
use steps::{Answer, Log};

// The Closed state of zeros.
pub fn zero_log() -> Log {
    Log(State::zero())
}

// Past the image's end nothing is set.
fn poke(image: &mut [u8], offset: usize, byte: u8) {
    if let Some(at) = image.get_mut(offset) {
        *at = byte;
    }
}

// What a command does to the state and the image, whose length it keeps. The number is that of a call, and the image's length lets the
// whole store of one that is not cut through.
pub fn performed(log: Log, image: &mut [u8], line: &[u8], command: Command) -> Answer
    requires { length line.now ≤ 4096 }
{
    let whole = image.len();
    match command {
        Command::Create(e, s) => Log::create(image, e, s),
        Command::Do(call) => calls::called(log, image, line, call, whole),
        // The state is lost, whatever the call answered.
        Command::Cut(k, call) => Answer {
            log: zero_log(),
            ..calls::called(log, image, line, call, k as usize)
        },
        Command::Poke(offset, byte) => {
            poke(image, offset as usize, byte);
            Answer { number: 0, log }
        }
        _ => Answer {
            number: 0,
            log: settings::set(log, command),
        },
    }
}
