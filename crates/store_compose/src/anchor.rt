// What composing over a store begins with, for proofs alone.
use std::marker::Brand;

// The image of the store, the base that it is for the files, and what reads its bytes as it was
// before the first byte was read. A call at `Brand` picks them.
pub(crate) trait Anchor<H> {
    ghost use Rattle.std.specs.Prelude.{ℕ, List, Option};
    ghost use Rattle.send_model.specs.Store.{Store};

    ghost image: { List ℕ };

    ghost base: { Store ℕ };

    ghost begun: { Option H };
}

impl<H> Anchor<H> for Brand {
    ghost use Rattle.std.specs.Prelude.{[], None};

    ghost image = { [] };

    ghost base = { [] };

    ghost begun = { None };
}
