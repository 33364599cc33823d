// A line's words.
ghost use Rattle.std.specs.Prelude.{◌≡◌, ◌≤◌, length};
ghost use Rattle.text.specs.Words.{words, word_at};

// How many words a line has: one more than spaces.
pub fn word_count(line: &[u8]) -> usize
    ensures { result ≡ length (words line.now) }
{
    line.split(|b| *b == b' ').count()
}

// Word i of a line, empty where the line has not so many.
pub fn word(line: &[u8], i: usize) -> &[u8]
    ensures { (result.now ≡ word_at line.now i) × (length result.now ≤ length line.now) }
{
    line.split(|b| *b == b' ').nth(i).unwrap_or(&[])
}
