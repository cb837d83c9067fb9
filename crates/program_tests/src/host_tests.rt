// What no clause says: that the objects of the system read and write.
use crate::same::same;
use host_io::{OutSink, PathInputs};
use std::fs;
use std::process::Abort;
use std::test::Fail;
use sx_base::{Failed, Inputs, Lost, Sink};

const READS: &[(&str, u64, &[u8])] = &[
    ("host_io.one", 0, b"0123"),
    ("host_io.one", 4, b"4567"),
    ("host_io.one", 8, b"89"),
    ("host_io.one", 10, b""),
    ("host_io.one", 3, b"3456"),
    ("host_io.two", 1, b"ther"),
    ("host_io.one", 0, b"0123"),
];

#[test]
fn files_are_read_in_any_order(rt: HostRuntime) -> Result<(), Fail> {
    fs::write(&rt, "host_io.one", "0123456789")?;
    fs::write(&rt, "host_io.two", "other")?;
    let mut inputs = PathInputs::new(&rt, rt.alloc());
    let mut buf = [0; 4];
    for &(name, at, want) in READS {
        let count = inputs.read_at(name, at, &mut buf)?;
        same(&rt, &buf[..count], want);
    }
    same(&rt, inputs.read_again("host_io.one", 5, &mut buf), Ok(()));
    same(&rt, &buf, b"5678");
    same(
        &rt,
        inputs.read_again("host_io.two", 3, &mut buf),
        Err(Lost::Ended { place: 5 }),
    );
    same(
        &rt,
        inputs.read_again("host_io.two", u64::MAX, &mut buf[..2]),
        Err(Lost::Failed),
    );
    fs::remove_file(&rt, "host_io.one")?;
    fs::remove_file(&rt, "host_io.two")?;
    same(
        &rt,
        inputs.read_at("host_io.none", 0, &mut buf),
        Err(Failed),
    );
    Ok(())
}

#[test]
fn what_can_not_be_read_is_a_fault(rt: HostRuntime) -> Result<(), Fail> {
    let mut inputs = PathInputs::new(&rt, rt.alloc());
    let mut buf = [0; 4];
    // A folder, and a file of the system whose first bytes can't be read.
    for name in [".", "/proc/self/mem"] {
        same(&rt, inputs.read_at(name, 0, &mut buf), Err(Failed));
        same(&rt, inputs.read_again(name, 0, &mut buf), Err(Lost::Failed));
    }
    Ok(())
}

#[test]
fn more_files_are_read_than_stay_open(rt: HostRuntime) -> Result<(), Fail> {
    let mut inputs = PathInputs::new(&rt, rt.alloc());
    let mut buf = [0; 2];
    for pass in 0..2 {
        for number in 0..20 {
            let name = format!(in rt.alloc(); "host_io.many.{number}")?;
            let text = format!(in rt.alloc(); "{number:02}{number:02}")?;
            if pass == 0 {
                fs::write(&rt, &name, &text)?;
            }
            same(&rt, inputs.read_at(&name, 2 * pass, &mut buf), Ok(2));
            same(&rt, text.as_bytes().starts_with(&buf), true);
        }
    }
    for number in 0..20 {
        let name = format!(in rt.alloc(); "host_io.many.{number}")?;
        fs::remove_file(&rt, &name)?;
    }
    Ok(())
}

#[test]
fn streams_take_what_they_have_room_for(rt: HostRuntime) -> Result<(), Fail> {
    let mut room = [0; 3];
    let mut sink = OutSink::new(&mut room[..]);
    same(&rt, sink.write(b"ab"), Ok(2));
    same(&rt, sink.write(b""), Ok(0));
    same(&rt, sink.write(b"cd"), Ok(1));
    same(&rt, sink.write(b"d"), Err(Failed));
    Ok(())
}
