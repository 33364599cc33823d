// The command that sets a field of the state.
ghost use Rattle.std.specs.Prelude.{◌≡◌};
ghost use Rattle.script.specs.Grammar.{set_command};

use crate::{Command, Setting, arguments};

// A field by its name, and its value.
#[tactic(auto, using(crate::proofs::Names::named), unfolding(crate::specs::Grammar::set_command, crate::specs::Grammar::lookup))]
pub fn set_command(name: &str, value: &[u8]) -> Option<Command>
    ensures { result ≡ set_command name.now value.now }
{
    let setting = match name {
        "mode" => Setting::Mode(arguments::mode(value)?),
        "E" => Setting::E(arguments::number(value)?),
        "S" => Setting::S(arguments::byte(value)?),
        "n" => Setting::N(arguments::byte(value)?),
        "head" => Setting::Head(arguments::number(value)?),
        "tail" => Setting::Tail(arguments::number(value)?),
        "last" => Setting::Last(arguments::number(value)?),
        "version" => Setting::Version(arguments::version(value)?),
        "place" => Setting::Place(arguments::number(value)?),
        "pending" => Setting::Pending(text::number(value, u64::MAX)?),
        "rollslot" => Setting::RollSlot(arguments::byte(value)?),
        "rolllen" => Setting::RollLen(arguments::number(value)?),
        _ => return None,
    };
    Some(Command::Set(setting))
}
