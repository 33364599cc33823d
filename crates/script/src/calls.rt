// The calls that can be cut, by their words.
ghost use Rattle.std.specs.Prelude.{◌≡◌, None};
ghost use Rattle.script.specs.Grammar.{lookup, payload_calls, number_calls, plain_call, argument_call};

use crate::{Call, arguments};

// A call by its name alone.
#[tactic(auto, using(crate::proofs::Names::named), unfolding(crate::specs::Grammar::plain_call, crate::specs::Grammar::lookup))]
pub fn plain_call(name: &str) -> Option<Call>
    ensures { result ≡ plain_call name.now }
{
    match name {
        "open" => Some(Call::Open),
        "wipe" => Some(Call::Wipe),
        "mark" => Some(Call::Mark),
        "list" => Some(Call::List),
        "headfinish" => Some(Call::HeadFinish),
        "tailfinish" => Some(Call::TailFinish),
        "close" => Some(Call::Close),
        "counts" => Some(Call::Counts),
        _ => None,
    }
}

// A call whose argument is a payload, by its name.
#[tactic(auto, using(crate::proofs::Names::named), unfolding(crate::specs::Grammar::lookup))]
fn payload_call(name: &str) -> Option<Call>
    ensures { result ≡ lookup payload_calls None name.now }
{
    match name {
        "append" => Some(Call::Append),
        "write" => Some(Call::Write),
        _ => None,
    }
}

// A call whose argument is a number, by its name.
#[tactic(auto, using(crate::proofs::Names::named), unfolding(crate::specs::Grammar::lookup))]
fn number_call(name: &str, v: u32) -> Option<Call>
    ensures { result ≡ lookup number_calls (λ v. None) name.now v }
{
    match name {
        "begin" => Some(Call::Begin(v)),
        "head" => Some(Call::Head(v)),
        "tail" => Some(Call::Tail(v)),
        "read" => Some(Call::Read(v)),
        _ => None,
    }
}

// A call by its name and its argument.
#[tactic(auto, unfolding(crate::specs::Grammar::argument_call))]
pub fn argument_call(name: &str, argument: &[u8]) -> Option<Call>
    ensures { result ≡ argument_call name.now argument.now }
{
    if let Some(call) = payload_call(name) {
        return text::is_payload(argument).then_some(call);
    }
    number_call(name, arguments::number(argument)?)
}
