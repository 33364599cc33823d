// A line's words read: names as text, and numbers as wide as what they are for.
// Each width has its function: one over `TryFrom` would leave to each caller's proof that the bound fits.
ghost use Rattle.std.specs.Prelude.{◌≡◌, Some, None};
ghost use Rattle.text.specs.Numeral.{number_of};
ghost use Rattle.table.specs.Next.{mode_of};
ghost use Rattle.script.specs.Grammar.{most, with_number};
ghost use Rattle.script.specs.Names.{name_of};

use table::Mode;

// A word as a name; what is no text is as the empty word, which is no name.
#[tactic(auto, using(crate::proofs::Names::read))]
pub fn name(word: &[u8]) -> &str
    ensures { result.now ≡ name_of word.now }
{
    std::str::from_utf8(word).unwrap_or("")
}

// A number where no other bound is said.
#[tactic(auto, using(text::proofs::Numerals::bounded))]
pub fn number(word: &[u8]) -> Option<u32>
    ensures { result ≡ number_of most word.now }
{
    Some(text::number(word, u64::from(u32::MAX))? as u32)
}

#[tactic(auto, using(text::proofs::Numerals::bounded))]
pub fn version(word: &[u8]) -> Option<u16>
    ensures { result ≡ number_of 65535 word.now }
{
    Some(text::number(word, u64::from(u16::MAX))? as u16)
}

#[tactic(auto, using(text::proofs::Numerals::bounded))]
pub fn byte(word: &[u8]) -> Option<u8>
    ensures { result ≡ number_of 255 word.now }
{
    Some(text::number(word, u64::from(u8::MAX))? as u8)
}

// A place among 64 slots or 64 starts.
#[tactic(auto, using(text::proofs::Numerals::bounded))]
pub fn slot(word: &[u8]) -> Option<u8>
    ensures { result ≡ number_of 63 word.now }
{
    Some(text::number(word, 63)? as u8)
}

// A mode by its number.
#[tactic(auto, using(text::proofs::Numerals::bounded))]
pub fn mode(word: &[u8]) -> Option<Mode>
    ensures { result ≡ with_number (number_of 9 word.now) (λ k. Some (mode_of k)) None }
{
    Some(table::mode_of(text::number(word, 9)? as usize))
}
