// What a map asks of its keys and values.
ghost use Rattle.std.specs.Prelude.{◌≡◌, IfOk, OnOk};
ghost use Rattle.std.specs.Cmp.{IsTotalOrder};
ghost use Rattle.std.specs.declared.cmp.Ordering.{Ordering};
ghost use Rattle.std.specs.Ordering.{nat_cmp};
ghost use Rattle.std.proofs.lemmas.Cmp.{nat_cmp_total};

use std::alloc::{AllocError, Global};
use std::cmp::Ordering;

/// A value of which there can be an exact copy.
pub trait Copied: Drop {
    /// An equal value. Fails for want of memory alone.
    fn copy(&self) -> Result<Self, AllocError>
        ensures { IfOk result (λ copy. copy ≡ self.now) };
}

/// A key, in a total order.
pub trait Key: Drop {
    /// The order of the keys.
    ghost order: { Self → Self → Ordering };

    /// An equal key. Fails for want of memory alone.
    fn copy_key(&self) -> Result<Self, AllocError>
        ensures { IfOk result (λ copy. copy ≡ self.now) };

    /// How many entries a page of a map with such keys has at most. Splitting and merging keep to
    /// it where there is memory, and no contract rests on it. A change moves the entries of a page,
    /// and a copy of a map takes memory for each page.
    fn most_entries() -> usize;

    ghost total: { IsTotalOrder order };
}

/// What stands for a key in a look-up, without memory of its own.
pub trait Sought<K: Key> {
    /// The key that it stands for.
    ghost sought: { Self → K };

    /// Where a key of the map stands beside it.
    fn against(&self, key: &K) -> Ordering
        ensures { result ≡ K.order key.now (sought self.now) };

    /// The key itself. Fails for want of memory alone.
    fn own(&self, alloc: Global) -> Result<K, AllocError>
        ensures { IfOk result (λ key. key ≡ sought self.now) };
}

/// A change of a value where it stands.
pub trait Edit<V: Drop>: Drop {
    /// What the value becomes.
    ghost edited: { Self → V → V };

    /// What the edit itself becomes, by the value as it was.
    ghost left: { Self → V → Self };

    /// Changes the value. Fails for want of memory alone, and then nothing is said of the value or
    /// of the edit.
    fn edit(&mut self, value: &mut V) -> Result<(), AllocError>
        ensures value { OnOk result (value.new ≡ edited self.old value.old) }
        ensures edit { OnOk result (self.new ≡ left self.old value.old) };
}

impl Copied for u64 {
    fn copy(&self) -> Result<u64, AllocError> {
        Ok(*self)
    }
}

impl Key for u64 {
    ghost order = { nat_cmp };

    fn copy_key(&self) -> Result<u64, AllocError> {
        Ok(*self)
    }

    fn most_entries() -> usize {
        64
    }

    ghost total = { nat_cmp_total };
}

impl Sought<u64> for u64 {
    ghost sought = { λ n. n };

    fn against(&self, key: &u64) -> Ordering {
        key.cmp(self)
    }

    fn own(&self, _alloc: Global) -> Result<u64, AllocError> {
        Ok(*self)
    }
}
