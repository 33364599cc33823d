// The input, in pieces: the lines that are there are answered before more is waited for.
ghost use Rattle.std.specs.Prelude.{◌≡◌, ◌<◌, ◌≤◌, IfOk, IfSome, Some};
ghost use Rattle.std.specs.Option.{unwrap_or};
ghost use Rattle.logrun_core.specs.Ends.{IsRest, EndsLine};

use crate::desk::{Desk, LONGEST};
use std::io;
use std::io::{Read, Write};

// The first `begun` bytes, of a buffer that is on no heap, begin a line that is not whole yet. Where that line is too long nothing of it is
// kept, and `begun` is `None` until its end has come.
#[derive(Drop)]
struct Input {
    bytes: [u8; 8192],
    begun: Option<usize>,
    ghost fits: { unwrap_or begun 0 ≤ 4096 },
}

// How many bytes stand behind the last line end.
fn unfinished(bytes: &[u8]) -> usize
    ensures { IsRest bytes.now result }
{
    match bytes.iter().rposition(|b| *b == b'\n') {
        Some(last) => bytes.len() - last - 1,
        None => bytes.len(),
    }
}

// Whole lines are answered. The first may be the end of one that is too long.
fn answer_lines<W: Write>(desk: &mut Desk<W>, whole: &[u8], is_long: bool) -> io::Result<()>
    requires { EndsLine whole.now }
{
    let mut lines = whole[..whole.len() - 1].split(|b| *b == b'\n');
    if is_long {
        lines.next();
        desk.bad()?;
    }
    for line in lines {
        desk.answer(line)?;
    }
    Ok(())
}

// The whole lines are answered; how many bytes behind them begin one that is not whole.
#[tactic(auto, using(crate::proofs::Lines::lines))]
fn pass_lines<W: Write>(desk: &mut Desk<W>, bytes: &[u8], is_long: bool) -> io::Result<usize>
    ensures { IfOk result (λ left. IsRest bytes.now left) }
{
    let left = unfinished(bytes);
    let end = bytes.len() - left;
    if end != 0 {
        answer_lines(desk, &bytes[..end], is_long)?;
    }
    Ok(left)
}

impl Input {
    fn new() -> Input {
        Input {
            bytes: [0; 8192],
            begun: Some(0),
        }
    }

    fn filled(&self) -> usize
        ensures { result ≤ 4096 }
    {
        self.begun.unwrap_or(0)
    }

    // No more comes. The last line may lack its end.
    fn finish<W: Write>(&self, desk: &mut Desk<W>) -> io::Result<()> {
        match self.begun {
            Some(0) => {}
            Some(n) => desk.answer(&self.bytes[..n])?,
            None => desk.bad()?,
        }
        desk.flush()
    }

    // Where the input ends behind one more read.
    fn read_more<R: Read>(&mut self, from: &mut R, filled: usize) -> io::Result<usize>
        requires { filled ≤ 8192 }
        ensures { IfOk result (λ end. (filled ≤ end) × (end ≤ 8192)) }
    {
        let got = from.read(&mut self.bytes[filled..])?;
        Ok(filled + got)
    }

    // What is left of the input goes to the front, unless it is of a line that is too long.
    fn keep(&mut self, end: usize, left: usize)
        requires { (left ≤ end) × (end ≤ 8192) }
        ensures no_more { IfSome self.new.begun (λ n. n ≡ left) }
        ensures all { left < end → left ≤ 4096 → self.new.begun ≡ Some left }
    {
        let is_still_long = self.begun.is_none() && left == end;
        if is_still_long || LONGEST < left {
            self.begun = None;
            return;
        }
        self.bytes.copy_within(end - left..end, 0);
        self.begun = Some(left);
    }

    // One read, and the answers to the lines that it ends; whether more may come.
    fn take_turn<R: Read, W: Write>(
        &mut self,
        from: &mut R,
        desk: &mut Desk<W>,
    ) -> io::Result<bool> {
        let filled = self.filled();
        let end = self.read_more(from, filled)?;
        if end == filled {
            self.finish(desk)?;
            return Ok(false);
        }
        let left = pass_lines(desk, &self.bytes[..end], self.begun.is_none())?;
        desk.flush()?;
        self.keep(end, left);
        Ok(true)
    }
}

// Drives a new log by the lines that a reader gives, and writes the answers. A proved loop has to end, and nothing says that the input
// does: so the turns are counted up to a number that no run reaches.
pub fn drive<R: Read, W: Write>(from: &mut R, to: &mut W) -> io::Result<()> {
    let mut desk = Desk::new(to);
    let mut input = Input::new();
    for _ in 0..u64::MAX {
        if !input.take_turn(from, &mut desk)? {
            break;
        }
    }
    Ok(())
}
