// btrsend once more, which the gate runs on a chain that is checked under guards: without the
// guards that the words give, the words would mean nothing.
#![tactic(auto)]

use host_io::start;
use std::process::ExitCode;

fn main(rt: HostRuntime) -> ExitCode {
    start(&rt)
}
