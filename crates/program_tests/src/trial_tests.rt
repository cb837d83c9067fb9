//! Lines of trials, whose numbers were counted by another program, and an output that fails.

use crate::same::same;
use chain_trial::write_trial;
use std::test::Fail;
use sx_base::{MemSink, Outcome};

const SHORT_CHAINS: &[(u64, u64, &[u8])] = &[
    (1, 7, b"trial 1 18 98763 98763 0 0\n"),
    (2, 0, b"trial 2 24 103130 107061 0 4096\n"),
    (2, 7, b"trial 2 24 103130 107061 0 4096\n"),
    (
        2,
        18446744073709551615,
        b"trial 2 24 103130 107061 0 4096\n",
    ),
];

#[test]
fn lines_of_short_chains(rt: HostRuntime) -> Result<(), Fail> {
    for &(count, seed, line) in SHORT_CHAINS {
        let mut out = MemSink::new(rt.alloc());
        same(
            &rt,
            write_trial(rt.alloc(), count, seed, &mut out),
            Outcome::Done,
        );
        same(&rt, out.bytes(), line);
    }
    Ok(())
}

#[test]
fn output_that_fails(rt: HostRuntime) -> Result<(), Fail> {
    let mut out = MemSink::new(rt.alloc());
    out.fail_call(1)?;
    same(
        &rt,
        write_trial(rt.alloc(), 1, 0, &mut out),
        Outcome::OutputFault,
    );
    same(&rt, out.bytes().is_empty(), true);
    Ok(())
}
