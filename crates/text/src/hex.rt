// Payloads in lower-case hexadecimal: a word read, bytes printed.
ghost use Rattle.std.specs.Prelude.{◌≡◌, ◌+◌, ◌*◌, ◌≤◌, ◌<◌, length};
ghost use Rattle.std.proofs.lemmas.List.Edits.{sets};
ghost use Rattle.text.specs.Hex.{is_hex, nibble as Hex·nibble, pairs as Hex·pairs, is_payload, bytes_of, hex_digit, hex_of};

// `0` to `9`, `a` to `f`.
fn is_hex(b: u8) -> bool
    ensures { result ≡ is_hex b }
{
    matches!(b, b'0'..=b'9' | b'a'..=b'f')
}

// The number of a digit, 0 for what is none.
fn nibble(b: u8) -> u8
    ensures { (result ≡ Hex·nibble b) × (result < 16) }
{
    match b {
        b'0'..=b'9' => b - b'0',
        b'a'..=b'f' => b - b'a' + 10,
        _ => 0,
    }
}

// Whether a word is pairs of digits, whole.
#[tactic(auto, using(crate::proofs::Nibbles::pairs_odd))]
fn pairs(word: &[u8]) -> bool
    ensures { result ≡ Hex·pairs word.now }
{
    word.len() % 2 == 0 && word.iter().all(|b| is_hex(*b))
}

// Whether a word is a payload: `-` for none, else a pair of digits for each byte.
#[tactic(auto, using(crate::proofs::Nibbles::payloads))]
pub fn is_payload(word: &[u8]) -> bool
    ensures { result ≡ is_payload word.now }
{
    match word {
        [] => false,
        b"-" => true,
        _ => pairs(word),
    }
}

// The bytes of a word's pairs at the front of out; their count.
#[tactic(auto, using(crate::proofs::Nibbles::byte_put))]
pub fn unhex(word: &[u8], out: &mut [u8]) -> usize
    requires { length word.now ≤ 2 * length out.old }
    ensures { (result ≡ length (bytes_of word.now)) × (out.new ≡ sets out.old 0 (bytes_of word.now)) }
{
    let (pairs, _) = word.as_chunks::<2>();
    for (i, [high, low]) in pairs.iter().enumerate() {
        out[i] = nibble(*high) * 16 + nibble(*low);
    }
    pairs.len()
}

fn digit(n: u8) -> u8
    requires { n < 16 }
    ensures { result ≡ hex_digit n }
{
    if n < 10 { b'0' + n } else { b'a' + (n - 10) }
}

// Two digits for each byte, at a place of out; the place behind them.
#[tactic(auto, using(crate::proofs::Nibbles::spelling))]
pub fn put_hex(out: &mut [u8], at: usize, src: &[u8]) -> usize
    requires { at + 2 * length src.now ≤ length out.old }
    ensures { (result ≡ at + 2 * length src.now) × (out.new ≡ sets out.old at (hex_of src.now)) }
{
    for (i, b) in src.iter().enumerate() {
        out[at + 2 * i] = digit(*b / 16);
        out[at + 2 * i + 1] = digit(*b % 16);
    }
    at + 2 * src.len()
}
