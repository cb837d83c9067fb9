// What many cells come from.
ghost use Rattle.std.specs.Prelude.{◌≡◌};
ghost use Rattle.std.specs.declared.cmp.Ordering.TheVariants.{Equal};
ghost use Rattle.stand_index.specs.Exact.{numbers_exact};

use uuid::Uuid;

// What many cells come from. Two that compare as equal are the same.
pub(crate) trait Source: Ord + Copy {
    ghost exact: { (a b : Self) → Self.cmp a b ≡ Equal → a ≡ b };
}

// An input file, by its number.
impl Source for u64 {
    ghost exact = { numbers_exact };
}

// A file of a complete subvolume.
#[derive(Debug, Clone, Copy, PartialEq, Eq, PartialOrd, Ord)]
pub(crate) struct OutsideFile {
    pub(crate) uuid: Uuid,
    pub(crate) ctransid: u64,
    pub(crate) ino: u64,
}

impl Source for OutsideFile {
    ghost use Rattle.stand_index.specs.Exact.{files_exact};

    ghost exact = { files_exact };
}
