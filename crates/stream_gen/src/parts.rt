// The parts of a chain.
ghost use Rattle.std.specs.Prelude.{◌≡◌, ◌<◌, ◌≤◌, ◌++◌, OnOk, map, replicate};
ghost use Rattle.send_model.specs.Command.{MkFile, Write};
ghost use Rattle.send_model.specs.Spelling.{canonical_all, stream_header};
ghost use Rattle.send_model.specs.Generated.{files, file_name};
ghost use Rattle.stream_gen.specs.Parts.{first_by, part_by};
ghost use Rattle.sx_base.specs.Bytes.{IsFront};

use crate::commands::{
    BLOCK, push_clone, push_end, push_header, push_mkfile, push_renames, push_snapshot,
    push_subvol, push_write,
};
use crate::draws::Drawn;
use std::alloc::{AllocError, Global};
use sx_base::Blob;
use uuid::Uuid;

// How many files there are.
const FILES: u64 = 8;

// How many bytes a file has: three blocks.
const FILE_LEN: usize = 12_288;

/// Appends the first part: eight files, and three blocks written into each.
pub fn push_first_part(alloc: Global, uuid: Uuid, to: &mut Blob) -> Result<(), AllocError>
    ensures appended { OnOk result
        (to.new ≡ to.old ++ (stream_header 1 ++ canonical_all 1 (first_by uuid))) }
    ensures kept { IsFront to.old to.new }
{
    push_header(to)?;
    push_subvol(alloc, uuid, to)?;
    push_files(alloc, to)?;
    push_contents(alloc, to)?;
    push_end(to)
}

fn push_files(alloc: Global, to: &mut Blob) -> Result<(), AllocError>
    ensures appended { OnOk result
        (to.new ≡ to.old ++ canonical_all 1 (map (λ file. MkFile (file_name file)) files)) }
    ensures kept { IsFront to.old to.new }
{
    for file in 0..FILES {
        push_mkfile(alloc, file, to)?;
    }
    Ok(())
}

fn push_contents(alloc: Global, to: &mut Blob) -> Result<(), AllocError>
    ensures appended { OnOk result
        (to.new ≡ to.old
        ++ canonical_all 1 (map (λ file. Write (file_name file) 0 (replicate 12_288 file)) files)) }
    ensures kept { IsFront to.old to.new }
{
    for file in 0..FILES {
        push_write(alloc, file, 0, file as u8, FILE_LEN, to)?;
    }
    Ok(())
}

/// Appends a later part, by what was drawn for it.
#[tactic(auto, unfolding(send_model::specs::Spelling::canonical_all))]
pub fn push_later_part(
    alloc: Global,
    uuid: Uuid,
    before: Uuid,
    part: u64,
    drawn: &Drawn,
    to: &mut Blob,
) -> Result<(), AllocError>
    requires later { 2 ≤ part }
    requires block { drawn.now.block < 3 }
    requires goal { drawn.now.goal_block < 3 }
    requires source { drawn.now.source_block < 3 }
    ensures appended { OnOk result
        (to.new ≡ to.old
        ++ (stream_header 1 ++ canonical_all 1 (part_by uuid before part drawn.now))) }
    ensures kept { IsFront to.old to.new }
{
    push_header(to)?;
    push_snapshot(alloc, uuid, before, part, to)?;
    push_write(
        alloc,
        drawn.file,
        BLOCK * drawn.block,
        drawn.byte,
        4_096,
        to,
    )?;
    push_clone(alloc, before, part, drawn, to)?;
    push_renames(alloc, drawn.file, to)?;
    push_end(to)
}
