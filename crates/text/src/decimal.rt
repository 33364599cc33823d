// Decimal numbers: a word read, a number printed.
ghost use Rattle.std.specs.Prelude.{◌≡◌, ◌+◌, ◌≤◌, length};
ghost use Rattle.std.proofs.lemmas.List.Edits.{sets};
ghost use Rattle.text.specs.Numeral.{begins, number_of, decimal_of};

// Whether a word can begin a numeral: it has no leading zero.
#[tactic(auto, using(crate::proofs::Numerals::beginnings))]
fn begins(word: &[u8]) -> bool
    ensures { result ≡ begins word.now }
{
    match word {
        [] => false,
        [_] => true,
        [first, ..] => *first != b'0',
    }
}

// The number that a word says, if it says one at or below the bound. std's parse would take a sign and leading zeros.
#[tactic(auto, using(crate::proofs::Numerals::reading))]
pub fn number(word: &[u8], bound: u64) -> Option<u64>
    ensures { result ≡ number_of bound word.now }
{
    if !begins(word) {
        return None;
    }
    let mut v: u64 = 0;
    for b in word {
        if !b.is_ascii_digit() {
            return None;
        }
        v = v.checked_mul(10)?.checked_add(u64::from(*b - b'0'))?;
        if bound < v {
            return None;
        }
    }
    Some(v)
}

// The digits of n at a place of out; the place behind them.
#[tactic(auto, using(crate::proofs::Printing::printing))]
pub fn put_decimal(out: &mut [u8], at: usize, n: u64) -> usize
    requires { at + 20 ≤ length out.old }
    ensures { (result ≡ at + length (decimal_of n)) × (out.new ≡ sets out.old at (decimal_of n)) }
{
    let last = b'0' + (n % 10) as u8;
    if n < 10 {
        out[at] = last;
        return at + 1;
    }
    let end = put_decimal(out, at, n / 10);
    out[end] = last;
    end + 1
}
