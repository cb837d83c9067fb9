// What the first byte of a group says.
ghost use Rattle.std.specs.Prelude.{◌≡◌, Some, None, false, nat_eq, if◌then◌else◌};
ghost use Rattle.group_replay.specs.Contents.{FindsKind, seal_len};

use group_log::GroupPlace;

// What a group does: it begins an entry, it completes one, or it drops one.
#[derive(Debug, Clone, Copy, PartialEq, Eq)]
pub(crate) enum Kind {
    Mark,
    Body,
    Drop,
}

// What the first byte of a group says: what the group does, and whether it ends with a checksum.
#[derive(Debug, Clone, Copy)]
pub(crate) struct Tag {
    pub(crate) kind: Kind,
    pub(crate) is_sealed: bool,
}

// A group, and what its first byte says.
#[derive(Debug, Clone, Copy)]
pub(crate) struct TaggedGroup {
    pub(crate) place: GroupPlace,
    pub(crate) tag: Tag,
}

// What the first byte of a group says in a journal of a format, none where no group of the format
// begins so.
pub(crate) fn kind_of(format: u32, byte: u8) -> Option<Tag>
    ensures found { FindsKind format byte result }
{
    match byte {
        1 => without_seal(format, Kind::Mark),
        2 => without_seal(format, Kind::Body),
        3 => without_seal(format, Kind::Drop),
        4 => Some(Tag {
            kind: Kind::Mark,
            is_sealed: true,
        }),
        5 => Some(Tag {
            kind: Kind::Body,
            is_sealed: true,
        }),
        6 => Some(Tag {
            kind: Kind::Drop,
            is_sealed: true,
        }),
        _ => None,
    }
}

// The same for groups without a checksum, which stand in journals of format 1 alone.
fn without_seal(format: u32, kind: Kind) -> Option<Tag>
    ensures found { result ≡ (if nat_eq format 1
        then Some (record { kind = kind; is_sealed = false }) else None) }
{
    if format == 1 {
        Some(Tag {
            kind,
            is_sealed: false,
        })
    } else {
        None
    }
}

// How many bytes a group ends with behind what it says: those of its checksum.
pub(crate) fn seal_len(is_sealed: bool) -> u64
    ensures { result ≡ seal_len is_sealed }
{
    if is_sealed { 4 } else { 0 }
}
