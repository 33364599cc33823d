// The listing that the program loglist prints: an image that comes in is opened as open does it, and what it says is written.

#![tactic(auto)]

ghost use Rattle.std.specs.Prelude.{◌≡◌, false, ◌≤◌, ◌<◌, length, IfOk, Ok};
ghost use Rattle.slots.specs.Entries.{lsn_nos};
ghost use Rattle.loglist_core.specs.Ends.{end_at};

use metadata::Slot;
use record::Lsn;
use std::io;
use std::io::{Read, Write};

// The longest image that is listed, 64 KiB.
const LONGEST_IMAGE: usize = 65536;

// The end of extent i: the next start, of the last the tail.
#[tactic(auto, using(crate::proofs::Ends::end_read))]
fn end_of(starts: &[Lsn], tail: Lsn, i: usize) -> Lsn
    requires { i < length starts.now }
    ensures { result.0 ≡ end_at (lsn_nos starts.now) tail.0 i }
{
    starts.get(i + 1).copied().unwrap_or(tail)
}

// The extents in the order of the listing, which is that of their LSNs and not of their slots.
fn print_extents<W: Write>(
    to: &mut W,
    slots: &[Slot],
    starts: &[Lsn],
    tail: Lsn,
) -> io::Result<()> {
    for (i, (slot, start)) in slots.iter().zip(starts).enumerate() {
        let end = end_of(starts, tail, i);
        writeln!(to, "ext {} {} {}", slot.0, start.0, end.0)?;
    }
    Ok(())
}

// The image as open finds it, or the number of the first rule that it breaks.
#[tactic(auto, using(crate::proofs::Listed::at_most_64))]
pub fn print_image<W: Write>(to: &mut W, image: &[u8]) -> io::Result<()> {
    let opening = match scan::read_image(image) {
        Ok(opening) => opening,
        Err(why) => return writeln!(to, "refused {why}"),
    };
    let m = opening.metadata;
    let tail = opening.tail;
    let n = usize::from(m.n);
    writeln!(to, "log {} {} {}", m.head.0, tail.0, m.version.0)?;
    print_extents(to, &m.slots[..n], &opening.starts[..n], tail)
}

// Reads until the space is full or the input ends; how many bytes came.
fn read_full<R: Read>(from: &mut R, space: &mut [u8]) -> io::Result<usize>
    ensures { IfOk result (λ n. n ≤ length space.new) }
{
    let mut filled = 0;
    while filled < space.len() {
        let n = from.read(&mut space[filled..])?;
        if n == 0 {
            break;
        }
        filled += n;
    }
    Ok(filled)
}

// Whether the input is too long, when its first n bytes are read. Fewer than the longest image are all there is, so that only behind a
// full buffer one more byte is asked for.
fn too_long<R: Read>(from: &mut R, n: usize) -> io::Result<bool>
    ensures { n < 65536 → result ≡ Ok false }
{
    if n < LONGEST_IMAGE {
        return Ok(false);
    }
    let mut next = [0u8; 1];
    Ok(from.read(&mut next)? != 0)
}

// The image that a reader gives. It may arrive in pieces, so it is read to its end before a byte is looked at.
pub fn list_input<R: Read, W: Write>(from: &mut R, to: &mut W) -> io::Result<()> {
    let mut space = [0u8; LONGEST_IMAGE];
    let n = read_full(from, &mut space)?;
    if too_long(from, n)? {
        return writeln!(to, "too long");
    }
    print_image(to, &space[..n])
}
