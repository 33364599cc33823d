// The script language of logrun: what a line says.

#![tactic(auto)]

mod arguments;
mod calls;
mod lines;
mod pairs;
mod settings;

pub use lines::{parse, payload};

// A call that can be cut, with its number; the payload of Append and Write is the line's last word.
#[derive(Clone, Copy, Debug, PartialEq, Eq)]
pub enum Call {
    Open,
    Wipe,
    Mark,
    Append,
    Begin(u32),
    Write,
    List,
    Head(u32),
    HeadFinish,
    Tail(u32),
    TailFinish,
    Close,
    Read(u32),
    Counts,
}

// A field of the state with its new value.
#[derive(Clone, Copy, Debug, PartialEq, Eq)]
pub enum Setting {
    Mode(table::Mode),
    E(u32),
    S(u8),
    N(u8),
    Head(u32),
    Tail(u32),
    Last(u32),
    Version(u16),
    Place(u32),
    Pending(u64),
    RollSlot(u8),
    RollLen(u32),
}

// What a line says.
#[derive(Clone, Copy, Debug, PartialEq, Eq)]
pub enum Command {
    New(u32),
    Create(u32, u8),
    Do(Call),
    Cut(u32, Call),
    Poke(u32, u8),
    Set(Setting),
    SetSlot(u8, u8),
    SetStart(u8, u32),
    Dump,
}
