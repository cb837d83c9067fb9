// What no clause says: that each call succeeds where there is memory, and values from outside.
use crate::same::same;
use std::alloc::{AllocError, Global};
use std::process::Abort;
use std::test::Fail;
use sx_base::{
    Blob, Failed, Inputs, Lost, MemInputs, MemSink, PlainInputs, PlainSink, Refusal, Stop,
    escape_into, write_whole,
};

#[test]
fn a_blob_takes_and_gives_bytes(rt: HostRuntime) -> Result<(), Fail> {
    let mut blob = Blob::new(rt.alloc());
    blob.push_all(b"one")?;
    blob.push_all(b" two")?;
    same(&rt, blob.as_slice(), b"one two".as_slice());
    let mut copy = blob.copy()?;
    copy.put(4, b"six");
    same(&rt, copy.as_slice(), b"one six".as_slice());
    copy.cut(3);
    same(&rt, copy.as_slice(), b"one".as_slice());
    same(&rt, blob.as_slice(), b"one two".as_slice());
    blob.clear();
    blob.push_all(b"three")?;
    let bytes = blob.into_vec();
    same(&rt, bytes.as_slice(), b"three".as_slice());
    same(&rt, Blob::from(bytes).as_slice(), b"three".as_slice());
    Ok(())
}

const ESCAPED: &[(&[u8], &[u8])] = &[
    (b"../x y", b"name ../x\\x20y"),
    (b"a\\b", b"name a\\x5cb"),
    (b"\x00\xc3\xaf\xff", b"name \\x00\\xc3\\xaf\\xff"),
    (b" !~\x7f", b"name \\x20!~\\x7f"),
];

#[test]
fn bytes_are_escaped(rt: HostRuntime) -> Result<(), Fail> {
    for &(bytes, want) in ESCAPED {
        let mut line = Blob::new(rt.alloc());
        line.push_all(b"name ")?;
        escape_into(bytes, &mut line)?;
        same(&rt, line.as_slice(), want);
    }
    Ok(())
}

const READ: &[(&str, u64, &[u8])] = &[
    ("a", 0, b"01234"),
    ("a", 5, b"56789"),
    ("a", 8, b"89"),
    ("a", 10, b""),
    ("a", u64::MAX, b""),
    ("none", 0, b""),
];

fn reads_pieces<I: Inputs>(rt: &impl Abort, inputs: &mut I) -> Result<(), Failed> {
    for &(name, at, want) in READ {
        let mut buf = [0; 5];
        let count = inputs.read_at(name, at, &mut buf)?;
        same(rt, &buf[..count], want);
    }
    Ok(())
}

fn plain(alloc: Global) -> Result<PlainInputs, AllocError> {
    let mut plain = PlainInputs::new(alloc);
    plain.add("b", b"other")?;
    plain.add("a", b"0123456789")?;
    plain.add("a", b"never read")?;
    Ok(plain)
}

fn chosen(alloc: Global) -> Result<MemInputs, AllocError> {
    let mut chosen = MemInputs::new(alloc);
    chosen.add("b", b"other")?;
    chosen.add("a", b"0123456789")?;
    chosen.add("a", b"never read")?;
    Ok(chosen)
}

#[test]
fn files_in_memory_are_read(rt: HostRuntime) -> Result<(), Fail> {
    reads_pieces(&rt, &mut plain(rt.alloc())?)?;
    let mut chosen = chosen(rt.alloc())?;
    reads_pieces(&rt, &mut chosen)?;
    chosen.fail_call(8)?;
    let mut buf = [0; 5];
    same(&rt, chosen.read_at("b", 0, &mut buf), Ok(5));
    same(&rt, chosen.read_at("b", 0, &mut buf), Err(Failed));
    same(&rt, chosen.read_at("b", 3, &mut buf), Ok(2));
    Ok(())
}

#[test]
#[tactic(auto, unfolding(sx_base::specs::Outside::file_at))]
fn files_in_memory_are_read_again(rt: HostRuntime) -> Result<(), Fail> {
    let mut plain = PlainInputs::new(rt.alloc());
    plain.add("a", b"0123456789")?;
    let mut buf = [0; 4];
    same(&rt, plain.read_again("a", 6, &mut buf), Ok(()));
    same(&rt, buf, *b"6789");
    let mut chosen = MemInputs::new(rt.alloc());
    chosen.add("a", b"0123456789")?;
    chosen.fail_call(2)?;
    same(&rt, chosen.read_again("a", 0, &mut buf), Ok(()));
    same(&rt, buf, *b"0123");
    same(&rt, chosen.read_again("a", 1, &mut buf), Err(Lost::Failed));
    same(&rt, chosen.read_again("a", 1, &mut buf), Ok(()));
    same(&rt, buf, *b"1234");
    Ok(())
}

#[test]
fn sinks_take_whole_pieces(rt: HostRuntime) -> Result<(), Fail> {
    let mut chosen = MemSink::new(rt.alloc());
    chosen.fail_call(2)?;
    same(&rt, write_whole(&mut chosen, b"one"), Ok(()));
    same(&rt, write_whole(&mut chosen, b"two"), Err(Failed));
    same(&rt, write_whole(&mut chosen, b"three"), Ok(()));
    same(&rt, chosen.bytes(), b"onethree".as_slice());
    same(&rt, chosen.refused(), 0);
    same(&rt, write_whole(&mut PlainSink::new(), b"four"), Ok(()));
    Ok(())
}

const REFUSALS: &[(Refusal, u64, &str)] = &[
    (Refusal::BadMagic, 1, "BadMagic"),
    (
        Refusal::BadChecksum {
            stored: 0,
            computed: 0x9dc9_6c50,
        },
        5,
        "BadChecksum",
    ),
    (Refusal::Overlap, 31, "Overlap"),
    (Refusal::NotConsecutive, 35, "NotConsecutive"),
    (Refusal::NotBuilt(16), 36, "NotBuilt"),
    (Refusal::BadText, 37, "BadText"),
    (Refusal::NoNumber, 38, "NoNumber"),
];

#[test]
fn refusals_have_numbers_and_names(rt: HostRuntime) -> Result<(), Fail> {
    for &(refusal, number, name) in REFUSALS {
        same(&rt, (refusal.number(), refusal.name()), (number, name));
        same(&rt, Stop::from(refusal), Stop::Refused(refusal));
    }
    let text = format!(in rt.alloc(); "{}", Stop::Refused(Refusal::BadVersion(3)))?;
    same(&rt, text.as_str(), "refused: BadVersion(3)");
    Ok(())
}
