// The commands of two numbers.
ghost use Rattle.std.specs.Prelude.{◌≡◌};
ghost use Rattle.script.specs.Grammar.{pair_command};

use crate::{Command, arguments};

// A command by its name and two numbers.
#[tactic(auto, using(crate::proofs::Names::named), unfolding(crate::specs::Grammar::pair_command, crate::specs::Grammar::lookup))]
pub fn pair_command(name: &str, a: &[u8], b: &[u8]) -> Option<Command>
    ensures { result ≡ pair_command name.now a.now b.now }
{
    let command = match name {
        "create" => Command::Create(arguments::number(a)?, arguments::byte(b)?),
        "poke" => Command::Poke(arguments::number(a)?, arguments::byte(b)?),
        "setslot" => Command::SetSlot(arguments::slot(a)?, arguments::byte(b)?),
        "setstart" => Command::SetStart(arguments::slot(a)?, arguments::number(b)?),
        _ => return None,
    };
    Some(command)
}
