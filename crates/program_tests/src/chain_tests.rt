//! Chains of two parts: their length, and a sum over their bytes that another program took.

use crate::same::same;
use std::test::Fail;
use stream_gen::{generate, write_chain};
use sx_base::{Blob, MemSink, Outcome};

// A seed, and the sum over the bytes of its chain of two parts.
struct Row {
    seed: u64,
    sum: u32,
}

const ROWS: &[Row] = &[
    Row {
        seed: 18446744073709551615,
        sum: 2687619496,
    },
    Row {
        seed: 7,
        sum: 3627320905,
    },
    Row {
        seed: 0,
        sum: 3288446100,
    },
];

const FIRST_LEN: usize = 98_763;

const BOTH_LEN: usize = 103_130;

fn sum_of(bytes: &[u8]) -> u32 {
    let mut sum = 0u32;
    for byte in bytes {
        sum = sum.wrapping_mul(31).wrapping_add(*byte as u32);
    }
    sum
}

#[test]
fn chains_of_two_parts(rt: HostRuntime) -> Result<(), Fail> {
    for row in ROWS {
        let mut out = MemSink::new(rt.alloc());
        same(
            &rt,
            write_chain(rt.alloc(), 2, row.seed, &mut out),
            Outcome::Done,
        );
        same(&rt, out.bytes().len(), BOTH_LEN);
        same(&rt, sum_of(out.bytes()), row.sum);
    }
    Ok(())
}

#[test]
fn parts_by_themselves(rt: HostRuntime) -> Result<(), Fail> {
    let mut out = MemSink::new(rt.alloc());
    same(&rt, write_chain(rt.alloc(), 2, 7, &mut out), Outcome::Done);
    let mut parts = Blob::new(rt.alloc());
    generate(rt.alloc(), 2, 7, 1, &mut parts)?;
    same(&rt, parts.as_slice().len(), FIRST_LEN);
    generate(rt.alloc(), 2, 7, 2, &mut parts)?;
    same(&rt, parts.as_slice(), out.bytes());
    Ok(())
}

#[test]
fn output_that_fails(rt: HostRuntime) -> Result<(), Fail> {
    let mut out = MemSink::new(rt.alloc());
    out.fail_call(2)?;
    same(
        &rt,
        write_chain(rt.alloc(), 3, 0, &mut out),
        Outcome::OutputFault,
    );
    same(&rt, out.bytes().len(), FIRST_LEN);
    Ok(())
}
