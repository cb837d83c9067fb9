// What the first byte of a group says.
ghost use Rattle.std.specs.Prelude.{IfSome, IfNone};
ghost use Rattle.store_model.specs.Scrub.{IsKind};
ghost use Rattle.store_scrub.specs.Numbers.{Names};

/// What a group says.
#[derive(Debug, Clone, Copy, PartialEq, Eq)]
pub enum GroupKind {
    /// A head that begins an entry.
    Mark,
    /// The edits of an entry, which complete it.
    Edits,
    /// The name of an entry that is dropped.
    Drop,
}

/// What the first byte of a group says in a journal of a format: the kind of the group, and whether
/// it ends with a checksum. `None` exactly where the format has no such kind. Takes no memory.
pub fn kind_of(format: u32, first: u8) -> Option<(GroupKind, bool)>
    ensures some { IfSome result (λ found. Names format first found.0 found.1) }
    ensures none { IfNone result (IsKind format first → ⊥) }
{
    match first {
        4 => Some((GroupKind::Mark, true)),
        5 => Some((GroupKind::Edits, true)),
        6 => Some((GroupKind::Drop, true)),
        1 if format == 1 => Some((GroupKind::Mark, false)),
        2 if format == 1 => Some((GroupKind::Edits, false)),
        3 if format == 1 => Some((GroupKind::Drop, false)),
        _ => None,
    }
}
