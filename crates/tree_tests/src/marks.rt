// Where the cells of the files of these tests come from.
use extent_map::Origin;

// The place of a byte in a file.
#[derive(Clone, Copy, Debug, PartialEq, Eq)]
pub(crate) struct Mark {
    pub(crate) place: u64,
}

impl Origin for Mark {
    ghost use Rattle.std.specs.Prelude.{◌+◌, ◌-◌, ◌^◌, false};
    ghost use Rattle.std.proofs.Common.{add-zero, add_assoc, ap, arith, refl};

    ghost reach = { λ m. 2 ^ 64 - 1 - m.place };

    ghost advanced = { λ m k. record m { place = m.place + k } };

    ghost foreign = { λ m. false };

    fn advance(&self, k: u64) -> Mark {
        Mark {
            place: self.place + k,
        }
    }

    fn is_foreign(&self) -> bool {
        false
    }

    ghost advanced_by_none = { λ o. ap (λ n. record o { place = n }) (add-zero o.place) };

    ghost reach_is_left = { λ o j k h. Prim.omega arith };

    ghost advanced_twice = { λ o j k h. ap (λ n. record o { place = n }) (add_assoc o.place j k) };

    ghost foreign_stays = { λ o k h. refl };
}

// The place of a byte in a file, and whether it is one of those that are looked for.
#[derive(Clone, Copy, Debug, PartialEq, Eq)]
pub(crate) struct Sought {
    pub(crate) place: u64,
    pub(crate) foreign: bool,
}

impl Origin for Sought {
    ghost use Rattle.std.specs.Prelude.{◌+◌, ◌-◌, ◌^◌};
    ghost use Rattle.std.proofs.Common.{add-zero, add_assoc, ap, arith, refl};

    ghost reach = { λ m. 2 ^ 64 - 1 - m.place };

    ghost advanced = { λ m k. record m { place = m.place + k } };

    ghost foreign = { λ m. m.foreign };

    fn advance(&self, k: u64) -> Sought {
        Sought {
            place: self.place + k,
            foreign: self.foreign,
        }
    }

    fn is_foreign(&self) -> bool {
        self.foreign
    }

    ghost advanced_by_none = { λ o. ap (λ n. record o { place = n }) (add-zero o.place) };

    ghost reach_is_left = { λ o j k h. Prim.omega arith };

    ghost advanced_twice = { λ o j k h. ap (λ n. record o { place = n }) (add_assoc o.place j k) };

    ghost foreign_stays = { λ o k h. refl };
}
