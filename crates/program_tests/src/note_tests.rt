// What no clause says: what stands in a note.
use crate::same::same;
use send_top::{Answer, write_note};
use std::process::Abort;
use std::test::Fail;
use sx_base::{MemSink, Outcome, Refusal, Verdict};

#[test]
fn notes_are_lines(rt: HostRuntime) -> Result<(), Fail> {
    let sums = Refusal::BadChecksum {
        stored: 0,
        computed: 0x9dc9_6c50,
    };
    let refused = |refusal| {
        Answer::Ended(Outcome::Refused(Verdict {
            file: 1,
            command: 1,
            offset: 17,
            refusal,
        }))
    };
    let table: [(Answer, &[u8]); 8] = [
        (
            refused(Refusal::NotConsecutive),
            b"refused 1 1 17 35 NotConsecutive\n",
        ),
        (
            refused(sums),
            b"refused 1 1 17 5 BadChecksum 00000000 9dc96c50\n",
        ),
        (
            refused(Refusal::BadVersion(3)),
            b"refused 1 1 17 2 BadVersion 3\n",
        ),
        (Answer::Usage, b"usage\n"),
        (
            Answer::Ended(Outcome::InputTooLong { file: 12 }),
            b"input too long 12\n",
        ),
        (
            Answer::Ended(Outcome::TooMuch {
                sum: 1_099_511_627_777,
            }),
            b"too much 1099511627777\n",
        ),
        (
            Answer::Ended(Outcome::InputChanged {
                file: 2,
                place: 4096,
            }),
            b"input changed 2 4096\n",
        ),
        (Answer::Ended(Outcome::Done), b""),
    ];
    for (answer, want) in table {
        let mut notes = MemSink::new(rt.alloc());
        write_note(&answer, &mut notes)?;
        same(&rt, notes.bytes(), want);
    }
    Ok(())
}
