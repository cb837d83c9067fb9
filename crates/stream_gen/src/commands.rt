// The commands of a chain, one by one.
ghost use Rattle.std.specs.Prelude.{◌≡◌, ◌<◌, ◌≤◌, ◌++◌, ◌*◌, ◌-◌, OnOk, IfOk, length, codes, replicate};
ghost use Rattle.std.specs.Int.{w64, to_le_bytes};
ghost use Rattle.send_model.specs.Command.{Snapshot, Subvol, Write, MkFile, Rename, End};
ghost use Rattle.send_model.specs.Spelling.{canonical, stream_header};
ghost use Rattle.std.specs.Fmt.{decimal};
ghost use Rattle.stream_gen.specs.Parts.{clone_by};
ghost use Rattle.send_commands.specs.Meaning.{meaning_of};
ghost use Rattle.send_commands.specs.Writing.{IsWritable};
ghost use Rattle.send_model.specs.Generated.{part_name, part_uuid, file_name};
ghost use Rattle.sx_base.specs.Bytes.{IsFront};

use crate::draws::Drawn;
use itoa::Buffer;
use send_commands::{Command, encode};
use std::alloc::{AllocError, Global};
use sx_base::Blob;
use tlv_frame::StreamHead;
use uuid::Uuid;

/// The length of a block in bytes.
pub const BLOCK: u64 = 4_096;

// A letter and a number in decimal digits.
fn numbered(alloc: Global, letter: &[u8], number: u64) -> Result<Blob, AllocError>
    requires one { length letter.now ≡ 1 }
    ensures name { IfOk result (λ name. name ≡ letter.now ++ decimal number) }
    ensures short { IfOk result (λ name. length name ≤ 21) }
{
    let mut name = Blob::new(alloc);
    name.push_all(letter)?;
    let mut buffer = Buffer::new();
    name.push_all(buffer.format(number).as_bytes())?;
    Ok(name)
}

// The name of a file.
fn name_of_file(alloc: Global, file: u64) -> Result<Blob, AllocError>
    ensures name { IfOk result (λ name. name ≡ file_name file) }
    ensures short { IfOk result (λ name. length name ≤ 21) }
{
    numbered(alloc, b"f", file)
}

// The name of a part.
fn name_of_part(alloc: Global, part: u64) -> Result<Blob, AllocError>
    ensures name { IfOk result (λ name. name ≡ part_name part) }
    ensures short { IfOk result (λ name. length name ≤ 21) }
{
    numbered(alloc, b"g", part)
}

/// The UUID of a part: the seed and the part's number, eight bytes each.
pub fn uuid_of(seed: u64, part: u64) -> Uuid
    ensures uuid { result ≡ part_uuid seed part }
{
    let a = seed.to_le_bytes();
    let b = part.to_le_bytes();
    Uuid::from_bytes([
        a[0], a[1], a[2], a[3], a[4], a[5], a[6], a[7], b[0], b[1], b[2], b[3], b[4], b[5], b[6],
        b[7],
    ])
}

/// Appends the header of a stream of version 1.
pub fn push_header(to: &mut Blob) -> Result<(), AllocError>
    ensures appended { OnOk result (to.new ≡ to.old ++ stream_header 1) }
    ensures kept { IsFront to.old to.new }
{
    to.push_all(&StreamHead { version: 1 }.bytes())
}

// Appends a command in its canonical spelling.
#[tactic(auto, unfolding(send_commands::specs::Writing::IsWritable, send_model::specs::Command::row))]
fn push_short(command: &Command<'_>, to: &mut Blob) -> Result<(), AllocError>
    requires writable { IsWritable 1 (meaning_of command.now) }
    ensures appended { OnOk result (to.new ≡ to.old ++ canonical 1 (meaning_of command.now)) }
    ensures kept { IsFront to.old to.new }
{
    encode(command, 1, to)
}

/// Appends the SUBVOL of the first part.
#[tactic(auto, unfolding(send_commands::specs::Writing::IsWritable, send_model::specs::Command::row))]
pub fn push_subvol(alloc: Global, uuid: Uuid, to: &mut Blob) -> Result<(), AllocError>
    ensures appended { OnOk result (to.new ≡ to.old ++ canonical 1 (Subvol uuid 1 (part_name 1))) }
    ensures kept { IsFront to.old to.new }
{
    let name = name_of_part(alloc, 1)?;
    let command = Command::Subvol {
        uuid,
        ctransid: 1,
        path: name.as_slice(),
    };
    push_short(&command, to)
}

/// Appends the SNAPSHOT of a later part.
#[tactic(auto, unfolding(send_commands::specs::Writing::IsWritable, send_model::specs::Command::row))]
pub fn push_snapshot(
    alloc: Global,
    uuid: Uuid,
    before: Uuid,
    part: u64,
    to: &mut Blob,
) -> Result<(), AllocError>
    requires later { 2 ≤ part }
    ensures appended { OnOk result
        (to.new ≡ to.old ++ canonical 1 (Snapshot uuid part (part_name part) before (part - 1))) }
    ensures kept { IsFront to.old to.new }
{
    let name = name_of_part(alloc, part)?;
    let command = Command::Snapshot {
        uuid,
        ctransid: part,
        path: name.as_slice(),
        clone_uuid: before,
        clone_ctransid: part - 1,
    };
    push_short(&command, to)
}

/// Appends the MKFILE of a file.
#[tactic(auto, unfolding(send_commands::specs::Writing::IsWritable, send_model::specs::Command::row))]
pub fn push_mkfile(alloc: Global, file: u64, to: &mut Blob) -> Result<(), AllocError>
    ensures appended { OnOk result (to.new ≡ to.old ++ canonical 1 (MkFile (file_name file))) }
    ensures kept { IsFront to.old to.new }
{
    let name = name_of_file(alloc, file)?;
    let command = Command::MkFile {
        path: name.as_slice(),
    };
    push_short(&command, to)
}

/// Appends a WRITE of so many equal bytes.
#[tactic(auto, unfolding(send_commands::specs::Writing::IsWritable, send_model::specs::Command::row))]
pub fn push_write(
    alloc: Global,
    file: u64,
    offset: u64,
    byte: u8,
    count: usize,
    to: &mut Blob,
) -> Result<(), AllocError>
    requires short { count < 65_536 }
    ensures appended { OnOk result
        (to.new ≡ to.old ++ canonical 1 (Write (file_name file) offset (replicate count byte))) }
    ensures kept { IsFront to.old to.new }
{
    let bytes = Vec::from_elem(alloc, byte, count)?;
    let name = name_of_file(alloc, file)?;
    let command = Command::Write {
        path: name.as_slice(),
        offset,
        bytes: bytes.as_slice(),
    };
    push_short(&command, to)
}

/// Appends the CLONE of a block of a file of the part before.
#[tactic(auto, unfolding(send_commands::specs::Writing::IsWritable, send_model::specs::Command::row))]
pub fn push_clone(
    alloc: Global,
    before: Uuid,
    part: u64,
    drawn: &Drawn,
    to: &mut Blob,
) -> Result<(), AllocError>
    requires later { 2 ≤ part }
    requires goal { drawn.now.goal_block < 3 }
    requires source { drawn.now.source_block < 3 }
    ensures appended { OnOk result
        (to.new ≡ to.old ++ canonical 1 (clone_by before part drawn.now)) }
    ensures kept { IsFront to.old to.new }
{
    let goal = name_of_file(alloc, drawn.goal)?;
    let source = name_of_file(alloc, drawn.source)?;
    let command = Command::Clone {
        path: goal.as_slice(),
        offset: BLOCK * drawn.goal_block,
        clone_uuid: before,
        clone_ctransid: part - 1,
        clone_path: source.as_slice(),
        clone_offset: BLOCK * drawn.source_block,
        clone_len: BLOCK,
    };
    push_short(&command, to)
}

// A file renamed to `t`.
#[tactic(auto, unfolding(send_commands::specs::Writing::IsWritable, send_model::specs::Command::row))]
fn push_away(alloc: Global, file: u64, to: &mut Blob) -> Result<(), AllocError>
    ensures appended { OnOk result
        (to.new ≡ to.old ++ canonical 1 (Rename (file_name file) (codes "t"))) }
    ensures kept { IsFront to.old to.new }
{
    let name = name_of_file(alloc, file)?;
    let command = Command::Rename {
        path: name.as_slice(),
        path_to: b"t",
    };
    push_short(&command, to)
}

// And back.
#[tactic(auto, unfolding(send_commands::specs::Writing::IsWritable, send_model::specs::Command::row))]
fn push_back(alloc: Global, file: u64, to: &mut Blob) -> Result<(), AllocError>
    ensures appended { OnOk result
        (to.new ≡ to.old ++ canonical 1 (Rename (codes "t") (file_name file))) }
    ensures kept { IsFront to.old to.new }
{
    let name = name_of_file(alloc, file)?;
    let command = Command::Rename {
        path: b"t",
        path_to: name.as_slice(),
    };
    push_short(&command, to)
}

/// Appends the RENAMEs of a file there and back.
pub fn push_renames(alloc: Global, file: u64, to: &mut Blob) -> Result<(), AllocError>
    ensures appended { OnOk result
        (to.new ≡ to.old ++ canonical 1 (Rename (file_name file) (codes "t"))
        ++ canonical 1 (Rename (codes "t") (file_name file))) }
    ensures kept { IsFront to.old to.new }
{
    push_away(alloc, file, to)?;
    push_back(alloc, file, to)
}

/// Appends END.
#[tactic(auto, unfolding(send_commands::specs::Writing::IsWritable, send_model::specs::Command::row))]
pub fn push_end(to: &mut Blob) -> Result<(), AllocError>
    ensures appended { OnOk result (to.new ≡ to.old ++ canonical 1 End) }
    ensures kept { IsFront to.old to.new }
{
    push_short(&Command::End, to)
}
