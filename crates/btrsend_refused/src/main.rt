// btrsend once more, which the gate runs on a chain that is refused: its status is that of the
// refusal, and standard output has the commands before it alone.
#![tactic(auto)]

use host_io::start;
use std::process::ExitCode;

fn main(rt: HostRuntime) -> ExitCode {
    start(&rt)
}
