// The bench with its image, and what one line does to them.
ghost use Rattle.std.specs.Prelude.{◌≤◌, length};

use crate::{Bench, show};
use logrun_show::Output;
use script::Command;
use std::io;
use std::io::Write;

// The longest line, its end not counted.
pub const LONGEST: usize = 4096;

// The longest image.
const SPACE: usize = 65536;

// The bench, the space whose first bytes are its image, since nothing here is on a heap, and where the answers go.
#[derive(Drop)]
pub struct Desk<W> {
    bench: Bench,
    space: [u8; SPACE],
    out: Output<W>,
    ghost fits: { bench.len ≤ 65536 },
}

impl<W: Write> Desk<W> {
    pub fn new(to: W) -> Desk<W> {
        Desk {
            bench: Bench {
                log: logrun_calls::zero_log(),
                len: 0,
            },
            space: [0; SPACE],
            out: Output::new(to),
        }
    }

    // A new image of zeros, and no state. Where it would be too long, all stays. The part that is lent as `&mut` says its 0: of `..len` in a
    // struct with a ghost field the borrow checker has no rule yet.
    fn begin(&mut self, len: usize) {
        if SPACE < len {
            return;
        }
        self.space[0..len].fill(0);
        self.bench = Bench {
            log: logrun_calls::zero_log(),
            len,
        };
    }

    // A line that says nothing changes nothing.
    pub fn bad(&mut self) -> io::Result<()> {
        self.out.write_all(b"bad\n")
    }

    // What a line says is done and shown.
    fn perform(&mut self, line: &[u8], command: Command) -> io::Result<()>
        requires { length line.now ≤ 4096 }
    {
        if let Command::New(n) = command {
            self.begin(n as usize);
        }
        let before = self.bench;
        let image = &mut self.space[0..before.len];
        let done = logrun_calls::performed(before.log, image, line, command);
        self.bench = Bench {
            log: done.log,
            len: before.len,
        };
        show::answer(
            &mut self.out,
            done,
            &self.space[..before.len],
            line,
            command,
        )
    }

    // One that is too long says nothing.
    pub fn answer(&mut self, line: &[u8]) -> io::Result<()> {
        if LONGEST < line.len() {
            return self.bad();
        }
        match script::parse(line) {
            Some(command) => self.perform(line, command),
            None => self.bad(),
        }
    }

    // The answers are written.
    pub fn flush(&mut self) -> io::Result<()> {
        self.out.flush()
    }
}
