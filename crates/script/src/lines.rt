// A line, by how many words it has.
ghost use Rattle.std.specs.Prelude.{◌≡◌, [], ◌∷◌, ◌*◌, ◌≤◌, length};
ghost use Rattle.std.proofs.lemmas.List.Edits.{sets};
ghost use Rattle.script.specs.Grammar.{cut_command, command_of, line_command, line_payload};

use crate::{Call, Command, arguments, calls, pairs, settings};

// The longest image.
const LONGEST: u64 = 65536;

// The call cut after so many bytes.
#[tactic(auto, unfolding(crate::specs::Grammar::cut_command))]
fn cut_command(count: &[u8], call: Option<Call>) -> Option<Command>
    ensures { result ≡ cut_command count.now call }
{
    Some(Command::Cut(arguments::number(count)?, call?))
}

#[tactic(auto, using(crate::proofs::Names::named), unfolding(crate::specs::Grammar::command_of))]
fn one_word(name: &str) -> Option<Command>
    ensures { result ≡ command_of (name.now ∷ []) }
{
    if let Some(call) = calls::plain_call(name) {
        return Some(Command::Do(call));
    }
    match name {
        "dump" => Some(Command::Dump),
        _ => None,
    }
}

#[tactic(auto, using(crate::proofs::Names::named, text::proofs::Numerals::bounded), unfolding(crate::specs::Grammar::command_of))]
fn two_words(name: &str, a: &[u8]) -> Option<Command>
    ensures { result ≡ command_of (name.now ∷ a.now ∷ []) }
{
    if let Some(call) = calls::argument_call(name, a) {
        return Some(Command::Do(call));
    }
    match name {
        "new" => Some(Command::New(text::number(a, LONGEST)? as u32)),
        _ => None,
    }
}

#[tactic(auto, using(crate::proofs::Names::named, crate::proofs::Names::as_text), unfolding(crate::specs::Grammar::command_of))]
fn three_words(name: &str, a: &[u8], b: &[u8]) -> Option<Command>
    ensures { result ≡ command_of (name.now ∷ a.now ∷ b.now ∷ []) }
{
    match name {
        "set" => settings::set_command(arguments::name(a), b),
        "cut" => cut_command(a, calls::plain_call(arguments::name(b))),
        _ => pairs::pair_command(name, a, b),
    }
}

#[tactic(auto, using(crate::proofs::Names::named, crate::proofs::Names::as_text), unfolding(crate::specs::Grammar::command_of))]
fn four_words(name: &str, a: &[u8], b: &[u8], c: &[u8]) -> Option<Command>
    ensures { result ≡ command_of (name.now ∷ a.now ∷ b.now ∷ c.now ∷ []) }
{
    match name {
        "cut" => cut_command(a, calls::argument_call(arguments::name(b), c)),
        _ => None,
    }
}

// What a line says.
#[tactic(auto, using(crate::proofs::Saying::lines))]
pub fn parse(line: &[u8]) -> Option<Command>
    ensures { result ≡ line_command line.now }
{
    let name = arguments::name(text::word(line, 0));
    let a = text::word(line, 1);
    let b = text::word(line, 2);
    let c = text::word(line, 3);
    match text::word_count(line) {
        1 => one_word(name),
        2 => two_words(name, a),
        3 => three_words(name, a, b),
        4 => four_words(name, a, b, c),
        _ => None,
    }
}

// The payload of a line whose command has one, at the front of out; its count.
#[tactic(auto, using(crate::proofs::Saying::payloads), unfolding(crate::specs::Grammar::line_payload))]
pub fn payload(line: &[u8], out: &mut [u8]) -> usize
    requires { length line.now ≤ 2 * length out.old }
    ensures { (result ≡ length (line_payload line.now)) × (result ≤ length out.new) × (out.new ≡ sets out.old 0 (line_payload line.now)) }
{
    let last = text::word(line, text::word_count(line) - 1);
    text::unhex(last, out)
}
