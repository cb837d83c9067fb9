// btrsend: checks and composes Btrfs send streams.
#![tactic(auto)]

use host_io::start;
use std::process::ExitCode;

fn main(rt: HostRuntime) -> ExitCode {
    start(&rt)
}
