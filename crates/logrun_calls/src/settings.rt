// The state's fields, set by hand.
use metadata::Slot;
use record::{Lsn, Version};
use script::{Command, Setting};
use state::State;
use steps::Log;

fn set_field(state: State, setting: Setting) -> State {
    match setting {
        Setting::Mode(mode) => State { mode, ..state },
        Setting::E(e) => State { e, ..state },
        Setting::S(s) => State { s, ..state },
        Setting::N(n) => State { n, ..state },
        Setting::Head(v) => State {
            head: Lsn(v),
            ..state
        },
        Setting::Tail(v) => State {
            tail: Lsn(v),
            ..state
        },
        Setting::Last(v) => State {
            last: Lsn(v),
            ..state
        },
        Setting::Version(v) => State {
            version: Version(v),
            ..state
        },
        Setting::Place(place) => State { place, ..state },
        Setting::Pending(pending) => State { pending, ..state },
        Setting::RollSlot(v) => State {
            roll_slot: Slot(v),
            ..state
        },
        Setting::RollLen(roll_len) => State { roll_len, ..state },
    }
}

// The entries with one of them set. A line's index is at most 63, so that it is there.
fn with<T: Copy>(mut entries: [T; 64], i: u8, to: T) -> [T; 64] {
    if let Some(entry) = entries.get_mut(usize::from(i)) {
        *entry = to;
    }
    entries
}

// Any other command sets nothing.
pub fn set(log: Log, command: Command) -> Log {
    let state = log.0;
    match command {
        Command::Set(setting) => Log(set_field(state, setting)),
        Command::SetSlot(i, v) => Log(State {
            slots: with(state.slots, i, Slot(v)),
            ..state
        }),
        Command::SetStart(i, v) => Log(State {
            starts: with(state.starts, i, Lsn(v)),
            ..state
        }),
        _ => log,
    }
}
