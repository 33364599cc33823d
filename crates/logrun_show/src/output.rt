// Output, collected: it is written when no more fits, and before input is waited for.
ghost use Rattle.std.specs.Prelude.{◌≤◌};

use std::io;
use std::io::Write;

const ROOM: usize = 65536;

// The first `filled` bytes of the buffer, which is on no heap, wait to be written.
#[derive(Drop)]
pub struct Output<W> {
    to: W,
    buffer: [u8; ROOM],
    filled: usize,
    ghost fits: { filled ≤ 65536 },
}

impl<W: Write> Output<W> {
    ghost use Rattle.std.specs.Prelude.{◌≡◌, []};
    ghost use Rattle.logrun_show.specs.Held.{waiting};

    pub fn new(to: W) -> Output<W>
        ensures writer { result.to ≡ to }
        ensures empty { waiting result ≡ [] }
    {
        Output {
            to,
            buffer: [0; ROOM],
            filled: 0,
        }
    }
}

impl<W: Write> Write for Output<W> {
    ghost use Rattle.std.specs.Prelude.{◌≡◌, [], length, IfOk, OnOk};
    ghost use Rattle.std.specs.Io.KnownBytes.{Keeps, Appends};
    ghost use Rattle.logrun_show.specs.Held.{waiting, held};

    // All of it is taken.
    fn write(&mut self, bytes: &[u8]) -> io::Result<usize>
        ensures all { IfOk result (λ n. n ≡ length bytes.now) }
        ensures appends { OnOk result (Appends (held W.contents self.old) (held W.contents self.new) bytes.now) }
    {
        self.write_all(bytes)?;
        Ok(bytes.len())
    }

    // What is collected is written; nothing is left.
    fn flush(&mut self) -> io::Result<()>
        ensures empty { OnOk result (waiting self.new ≡ []) }
        ensures keeps { OnOk result (Keeps (held W.contents self.old) (held W.contents self.new)) }
    {
        self.to.write_all(&self.buffer[..self.filled])?;
        self.filled = 0;
        self.to.flush()
    }

    // What is longer than the buffer goes straight out.
    fn write_all(&mut self, bytes: &[u8]) -> io::Result<()>
        ensures appends { OnOk result (Appends (held W.contents self.old) (held W.contents self.new) bytes.now) }
    {
        if ROOM - self.filled < bytes.len() {
            self.flush()?;
        }
        if ROOM - self.filled < bytes.len() {
            return self.to.write_all(bytes);
        }
        let end = self.filled + bytes.len();
        self.buffer[self.filled..end].copy_from_slice(bytes);
        self.filled = end;
        Ok(())
    }
}
