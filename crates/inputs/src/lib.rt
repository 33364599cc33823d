// What a program works on: standard input, or the files that its arguments name, in their order.

#![tactic(auto)]

ghost use Rattle.std.specs.Prelude.{◌≤◌, length};

use std::env::FillError;
use std::io::Read;
use std::rt::{Env, Files};
use std::{fs, io};

// What an argument names. Standard input stays open when it is let go, and a file is closed.
#[derive(Drop)]
pub enum Source<S, F> {
    Stdin(S),
    File(F),
}

impl<S: Read, F: Read> Read for Source<S, F> {
    fn read(&mut self, buf: &mut [u8]) -> io::Result<usize> {
        match self {
            Source::Stdin(stdin) => stdin.read(buf),
            Source::File(file) => file.read(buf),
        }
    }
}

fn say(rt: &impl Print, word: &[u8], name: &[u8]) -> io::Result<()> {
    rt.write_all(word)?;
    rt.write_all(name)?;
    rt.write_all(b"\n")
}

// A directory can be opened, and refuses even a read of no bytes. A path is UTF-8: a name that is not cannot be read.
fn open_file<R: Files>(rt: &R, name: &[u8]) -> Option<R::File> {
    let path = str::from_utf8(name).ok()?;
    let mut file = fs::open(rt, path).ok()?;
    file.read(&mut []).ok()?;
    Some(file)
}

// A dash is standard input.
fn open_name<R: Files + Input>(rt: &R, name: &[u8]) -> Option<Source<R::Reader, R::File>> {
    if name == b"-".as_slice() {
        return Some(Source::Stdin(rt.reader()));
    }
    Some(Source::File(open_file(rt, name)?))
}

// Argument i at the start of the space, and its length: 0 where there is none, and where it is longer than the space, which holds any path.
fn name_of(rt: &impl Env, i: usize, space: &mut [u8]) -> usize
    ensures { result ≤ length space.new }
{
    rt.arg(i, space).unwrap_or(0)
}

// Whether there is an argument i. It need not fit a buffer for that.
fn is_there(rt: &impl Env, i: usize) -> bool {
    !matches!(rt.arg(i, &mut []), Err(FillError::NotPresent))
}

// Opens what argument i names, and prints its name; nothing where it cannot be read, which is printed too.
fn open<R: Env + Files + Input + Print>(
    rt: &R,
    i: usize,
) -> io::Result<Option<Source<R::Reader, R::File>>> {
    let mut space = [0u8; 4096];
    let n = name_of(rt, i, &mut space);
    let name = &space[..n];
    match open_name(rt, name) {
        Some(source) => {
            say(rt, b"file ", name)?;
            Ok(Some(source))
        }
        None => {
            say(rt, b"cannot read ", name)?;
            Ok(None)
        }
    }
}

// The work is done on what each argument names, in their order, and on standard input where there is none. The first argument is the
// program's own name. Behind its work each is let go: a file is closed, and standard input stays open, since it may be named again.
pub fn for_each<R, F>(rt: &R, work: F) -> io::Result<()>
where
    R: Env + Files + Input + Print,
    F: Fn(&mut Source<R::Reader, R::File>) -> io::Result<()>,
    requires { F.IsAlwaysCallable work }
{
    if !is_there(rt, 1) {
        return work(&mut Source::Stdin(rt.reader()));
    }
    for i in (1..usize::MAX).take_while(|i| is_there(rt, *i)) {
        if let Some(mut source) = open(rt, i)? {
            work(&mut source)?;
        }
    }
    Ok(())
}
