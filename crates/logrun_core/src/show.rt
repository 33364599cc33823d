// A line's answer: the command's name, what it shows of what it did, and the state and the image behind it.
use logrun_show::Output;
use record::Lsn;
use script::{Call, Command};
use std::io;
use std::io::Write;
use steps::{Answer, Log};

// The payload's place and length, and the payload.
fn reading<W: Write>(out: &mut Output<W>, log: Log, image: &[u8], x: Lsn) -> io::Result<()> {
    let found = log.read(image, x);
    logrun_show::field(out, found.place as u64)?;
    logrun_show::field(out, found.length as u64)?;
    logrun_show::hex(out, log.read_part(image, x))
}

// What a call shows besides its number.
fn view<W: Write>(out: &mut Output<W>, log: Log, image: &[u8], call: Call) -> io::Result<()> {
    match call {
        Call::Read(x) => reading(out, log, image, Lsn(x)),
        Call::Counts => {
            let counts = log.counts();
            logrun_show::field(out, u64::from(counts.free))?;
            logrun_show::field(out, u64::from(counts.live))
        }
        _ => Ok(()),
    }
}

// What a command shows of what it did: a call its number, and what it looked for.
fn shown<W: Write>(
    out: &mut Output<W>,
    done: Answer,
    image: &[u8],
    command: Command,
) -> io::Result<()> {
    let number = u64::from(done.number);
    match command {
        Command::Create(..) | Command::Cut(..) => logrun_show::field(out, number),
        Command::Do(call) => {
            logrun_show::field(out, number)?;
            view(out, done.log, image, call)
        }
        Command::Dump => logrun_show::hex(out, image),
        _ => Ok(()),
    }
}

pub fn answer<W: Write>(
    out: &mut Output<W>,
    done: Answer,
    image: &[u8],
    line: &[u8],
    command: Command,
) -> io::Result<()> {
    out.write_all(text::word(line, 0))?;
    shown(out, done, image, command)?;
    logrun_show::state(out, done.log.0, image)
}
