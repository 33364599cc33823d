// Drives a log by the script on standard input, or a new log by each script in the files that its arguments name. Stored are: on
// standard input the mission, two trials, one withdrawn, the power cut while its bytes go, and the withdrawn one gone and the kept one
// there; `life`, every step, and back through recovery; `refusals`, every refusal number that can be met; `cuts`, the power cut inside
// each kind of store; and `bad`, lines that are none, and states that are malformed.

#![tactic(auto)]

use std::io;

fn main(rt: HostRuntime) -> io::Result<()> {
    inputs::for_each(
        &rt,
        |source| logrun_core::drive(source, &mut io::writer(&rt)),
    )
}
