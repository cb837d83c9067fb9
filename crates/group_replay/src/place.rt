// Where a byte of a file stands on the disk.
use extent_map::Origin;

/// The place of a byte on the disk.
#[derive(Debug, Clone, Copy, PartialEq, Eq)]
pub struct Place {
    pub at: u64,
}

impl Origin for Place {
    ghost use Rattle.std.specs.Prelude.{false};
    ghost use Rattle.std.proofs.Common.{refl};
    ghost use Rattle.group_replay.specs.Placing.{reach_of, further, by_none, is_left, by_both};

    ghost reach = { reach_of };

    ghost advanced = { further };

    ghost foreign = { λ place. false };

    fn advance(&self, k: u64) -> Place {
        Place { at: self.at + k }
    }

    fn is_foreign(&self) -> bool {
        false
    }

    ghost advanced_by_none = { by_none };

    ghost reach_is_left = { is_left };

    ghost advanced_twice = { by_both };

    ghost foreign_stays = { λ place k h. refl };
}
