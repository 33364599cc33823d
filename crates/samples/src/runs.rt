// Samples 3 to 10: calls on logs that run.
use crate::print;
use record::Lsn;
use state::State;
use std::io;
use steps::{Answer, Log};

// A created log that runs: opened, wiped, marked.
pub fn running(image: &mut [u8]) -> Log {
    let made = Log::create(image, 64, 2);
    if made.number != 0 {
        return made.log;
    }
    let found = Log::open(image);
    let wiped = found.log.wipe(image);
    wiped.log.mark(image).log
}

// A call's number, and one field of the state that it left.
fn show<F: Fn(State) -> u32>(rt: &impl Print, name: &str, a: Answer, field: F) -> io::Result<()>
    requires { F.IsAlwaysCallable field }
{
    print::two(rt, name, a.number, field(a.log.0))
}

// M is 50: 50 bytes fill an empty extent, 51 are too long.
pub fn longest(rt: &impl Print) -> io::Result<()> {
    let mut image = [0u8; 212];
    let log = running(&mut image);
    show(
        rt,
        "3 append of 51 bytes, write place",
        log.append(&mut image, &[0u8; 51]),
        |log| log.place,
    )?;
    show(
        rt,
        "3 append of 50 bytes, write place",
        log.append(&mut image, &[0u8; 50]),
        |log| log.place,
    )
}

// Write place 55 behind a payload of 41: an empty one fits.
pub fn would_fit(rt: &impl Print) -> io::Result<()> {
    let mut image = [0u8; 212];
    let log = running(&mut image).append(&mut image, &[0u8; 41]).log;
    show(
        rt,
        "4 roll begin of 0 bytes, write place",
        log.roll_begin(&mut image, 0),
        |log| log.place,
    )?;
    show(
        rt,
        "4 append of 0 bytes, write place",
        log.append(&mut image, b""),
        |log| log.place,
    )
}

// Write place 56: it does not fit.
pub fn full(rt: &impl Print) -> io::Result<()> {
    let mut image = [0u8; 212];
    let log = running(&mut image).append(&mut image, &[0u8; 42]).log;
    show(
        rt,
        "5 append of 0 bytes, write place",
        log.append(&mut image, b""),
        |log| log.place,
    )?;
    show(
        rt,
        "5 roll begin of 0 bytes, slot",
        log.roll_begin(&mut image, 0),
        |log| u32::from(log.roll_slot.0),
    )
}

// Sample 2 cut after k bytes, then open.
fn torn_after(rt: &impl Print, name: &str, k: usize) -> io::Result<()> {
    let mut image = [0u8; 212];
    let log = running(&mut image);
    log.append_cut(&mut image, b"AB", k);
    show(rt, name, Log::open(&image), |log| log.tail.0)
}

pub fn torn(rt: &impl Print) -> io::Result<()> {
    torn_after(rt, "6 sample 2 cut after 10 bytes, open, tail", 10)?;
    torn_after(rt, "6 sample 2 cut after 11 bytes, open, tail", 11)
}

// The withdrawn record is not found again, although its bytes are still there.
pub fn withdrawn(rt: &impl Print) -> io::Result<()> {
    let mut image = [0u8; 212];
    let log = running(&mut image).append(&mut image, b"AB").log;
    show(
        rt,
        "7 after sample 2, tail start 1, tail",
        log.tail_start(&mut image, Lsn(1)),
        |log| log.tail.0,
    )?;
    show(
        rt,
        "7 power cut, open, tail",
        Log::open(&image),
        |log| log.tail.0,
    )?;
    show(
        rt,
        "7 power cut, open, version",
        Log::open(&image),
        |log| u32::from(log.version.0),
    )
}

// Head 1, tail 3.
fn two_records(image: &mut [u8]) -> Log {
    let log = running(image).append(image, b"AB").log;
    log.append(image, b"CD").log
}

pub fn head(rt: &impl Print) -> io::Result<()> {
    for h in 1..5 {
        let mut image = [0u8; 212];
        let moved = two_records(&mut image).head_start(&mut image, Lsn(h));
        let head = moved.log.0.head.0;
        println!(rt; "8 head start {h}, head {} {head}", moved.number)?;
    }
    Ok(())
}

pub fn tail(rt: &impl Print) -> io::Result<()> {
    for t in 0..4 {
        let mut image = [0u8; 212];
        let moved = two_records(&mut image).tail_start(&mut image, Lsn(t));
        let tail = moved.log.0.tail.0;
        println!(rt; "9 tail start {t}, tail {} {tail}", moved.number)?;
    }
    Ok(())
}

// A log at the last LSN but one: the state says so.
pub fn last_lsn(rt: &impl Print) -> io::Result<()> {
    let mut image = [0u8; 212];
    let state = running(&mut image).0;
    let mut starts = state.starts;
    starts[0] = Lsn(4294967294);
    let near = State {
        starts,
        head: Lsn(4294967294),
        tail: Lsn(4294967294),
        ..state
    };
    let done = Log(near).append(&mut image, b"AB");
    show(
        rt,
        "10 append at tail 4294967294, tail",
        done,
        |log| log.tail.0,
    )?;
    show(
        rt,
        "10 the next append, tail",
        done.log.append(&mut image, b"CD"),
        |log| log.tail.0,
    )
}
