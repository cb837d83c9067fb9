// An origin that points nowhere.
ghost use Rattle.std.specs.Prelude.{◌^◌, false};

use crate::origin::Origin;

/// An origin that points nowhere: contents over it keep which cells were written and no more.
#[derive(Debug, Clone, Copy, PartialEq, Eq)]
pub struct Nowhere;

impl Origin for Nowhere {
    ghost use Rattle.std.proofs.Common.{refl, arith};

    ghost reach = { λ o. 2 ^ 64 };

    ghost advanced = { λ o k. o };

    ghost foreign = { λ o. false };

    fn advance(&self, k: u64) -> Nowhere {
        let _ = k;
        Nowhere
    }

    fn is_foreign(&self) -> bool {
        false
    }

    fn goes_on(&self, len: u64, next: &Nowhere, more: u64) -> bool {
        let _ = next;
        len.checked_add(more).is_some()
    }

    ghost advanced_by_none = { λ o. refl };

    ghost reach_is_left = { λ o j k h. Prim.omega (arith, h) };

    ghost advanced_twice = { λ o j k h. refl };

    ghost foreign_stays = { λ o k h. refl };
}
