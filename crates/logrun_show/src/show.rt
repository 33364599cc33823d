// How an answer is spelled: numbers and bytes as `text` has them, and behind them the state and the image as a line ends: the fields, the
// listed entries, the image's length and CRC.
ghost use Rattle.std.specs.Prelude.{◌≡◌, ◌<◌, ◌≤◌, [], ◌∷◌, length, OnOk};
ghost use Rattle.std.specs.Io.KnownBytes.{Appends};
ghost use Rattle.text.specs.Numeral.{decimal_of};
ghost use Rattle.text.specs.Hex.{hex_of};
ghost use Rattle.logrun_show.specs.Held.{held};

use crate::Output;
use state::State;
use std::io;
use std::io::Write;

// The bytes that are spelled at once.
const PIECE: usize = 512;

// A number, in decimal.
#[tactic(auto, using(crate::proofs::Spelled::spelling))]
fn decimal<W: Write>(out: &mut Output<W>, n: u64) -> io::Result<()>
    ensures { OnOk result (Appends (held W.contents out.old) (held W.contents out.new) (decimal_of n)) }
{
    let mut digits = [0; 20];
    let count = text::put_decimal(&mut digits, 0, n);
    out.write_all(&digits[..count])
}

// Two digits for each byte.
#[tactic(auto, using(crate::proofs::Spelled::spelling))]
fn hex_piece<W: Write>(out: &mut Output<W>, bytes: &[u8]) -> io::Result<()>
    requires { length bytes.now ≤ 512 }
    ensures { OnOk result (Appends (held W.contents out.old) (held W.contents out.new) (hex_of bytes.now)) }
{
    let mut digits = [0; 2 * PIECE];
    let count = text::put_hex(&mut digits, 0, bytes);
    out.write_all(&digits[..count])
}

// A space, and a number.
pub fn field<W: Write>(out: &mut Output<W>, n: u64) -> io::Result<()>
    ensures { OnOk result (Appends (held W.contents out.old) (held W.contents out.new) (32 ∷ decimal_of n)) }
{
    out.write_all(b" ")?;
    decimal(out, n)
}

// A word, and numbers with a comma before each but the first.
fn entries<W: Write, T: Copy, F: Fn(T) -> u32>(
    out: &mut Output<W>,
    word: &[u8],
    items: &[T],
    number: F,
) -> io::Result<()>
    requires { F.IsAlwaysCallable number }
{
    out.write_all(word)?;
    let mut comma: &[u8] = b"";
    for item in items {
        out.write_all(comma)?;
        decimal(out, u64::from(number(*item)))?;
        comma = b",";
    }
    Ok(())
}

// Mode E S n head tail last version place pending rollslot rolllen.
fn fields<W: Write>(out: &mut Output<W>, state: State) -> io::Result<()> {
    let numbers = [
        state.mode.number() as u64,
        u64::from(state.e),
        u64::from(state.s),
        u64::from(state.n),
        u64::from(state.head.0),
        u64::from(state.tail.0),
        u64::from(state.last.0),
        u64::from(state.version.0),
        u64::from(state.place),
        state.pending,
        u64::from(state.roll_slot.0),
        u64::from(state.roll_len),
    ];
    for n in numbers {
        field(out, n)?;
    }
    Ok(())
}

// The image's length and CRC, whose upper byte comes first.
fn image_line<W: Write>(out: &mut Output<W>, image: &[u8]) -> io::Result<()> {
    out.write_all(b" image=")?;
    decimal(out, image.len() as u64)?;
    out.write_all(b":")?;
    hex_piece(out, &text::crc32(image).to_be_bytes())?;
    out.write_all(b"\n")
}

// The state, as its numbers and its entries, and the image. At most 64 entries are there, whatever n says.
pub fn state<W: Write>(out: &mut Output<W>, state: State, image: &[u8]) -> io::Result<()> {
    let n = usize::from(state.n).min(64);
    out.write_all(b" |")?;
    fields(out, state)?;
    entries(out, b" slots=", &state.slots[..n], |slot| u32::from(slot.0))?;
    entries(out, b" starts=", &state.starts[..n], |start| start.0)?;
    image_line(out, image)
}

// A space, and bytes in hex, `-` for none.
pub fn hex<W: Write>(out: &mut Output<W>, bytes: &[u8]) -> io::Result<()>
    ensures none { bytes.now ≡ [] → OnOk result (Appends (held W.contents out.old) (held W.contents out.new) (32 ∷ 45 ∷ [])) }
    ensures some { 0 < length bytes.now → OnOk result (Appends (held W.contents out.old) (held W.contents out.new) (32 ∷ hex_of bytes.now)) }
{
    if bytes.is_empty() {
        return out.write_all(b" -");
    }
    out.write_all(b" ")?;
    for piece in bytes.chunks(PIECE) {
        hex_piece(out, piece)?;
    }
    Ok(())
}
