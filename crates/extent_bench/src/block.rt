// What the cells of the measured file are.
ghost use Rattle.std.specs.Prelude.{◌+◌, ◌-◌, ◌^◌, false};

use extent_map::Origin;

/// A byte, by its number among all bytes that were written.
#[derive(Debug, Clone, Copy)]
pub struct Byte {
    pub number: u64,
}

impl Origin for Byte {
    ghost use Rattle.std.proofs.Common.{add-zero, add_assoc, ap, arith, refl};

    ghost reach = { λ b. 2 ^ 64 - 1 - b.number };

    ghost advanced = { λ b k. record b { number = b.number + k } };

    ghost foreign = { λ b. false };

    fn advance(&self, k: u64) -> Byte {
        Byte {
            number: self.number + k,
        }
    }

    fn is_foreign(&self) -> bool {
        false
    }

    ghost advanced_by_none = { λ b. ap (λ n. record b { number = n }) (add-zero b.number) };

    ghost reach_is_left = { λ b j k h. Prim.omega arith };

    ghost advanced_twice = { λ b j k h. ap (λ n. record b { number = n }) (add_assoc b.number j k) };

    ghost foreign_stays = { λ b k h. refl };
}
