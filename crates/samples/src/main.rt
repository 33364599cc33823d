// Document 01's samples at E = 64, S = 2, run on the proved calls. A line is the sample's number, what was done, and what came out
// of it: a call's number, then one field of the state that it left.

#![tactic(auto)]

mod bytes;
mod print;
mod runs;

use std::io;

fn main(rt: HostRuntime) -> io::Result<()> {
    bytes::metadata(&rt)?;
    bytes::record(&rt)?;
    runs::longest(&rt)?;
    runs::would_fit(&rt)?;
    runs::full(&rt)?;
    runs::torn(&rt)?;
    runs::withdrawn(&rt)?;
    runs::head(&rt)?;
    runs::tail(&rt)?;
    runs::last_lsn(&rt)?;
    bytes::clean_two(&rt)?;
    bytes::listed(&rt)
}
