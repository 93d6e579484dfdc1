// Sums of bytes and of cycles. No sum takes one of each.
ghost use Rattle.std.specs.Prelude.{◌≡◌, ◌+◌, ◌≤◌};

use crate::{Bytes, Cycles};
use std::ops::Add;

impl Add for Bytes {
    type Output = Bytes;

    ghost can_add = { λ a b. a.0 + b.0 ≤ 18446744073709551615 };

    ghost add_gives = { λ a b sum. sum.0 ≡ a.0 + b.0 };

    fn add(self, more: Bytes) -> Bytes {
        Bytes(self.0 + more.0)
    }
}

impl Add for Cycles {
    type Output = Cycles;

    ghost can_add = { λ a b. a.0 + b.0 ≤ 18446744073709551615 };

    ghost add_gives = { λ a b sum. sum.0 ≡ a.0 + b.0 };

    fn add(self, more: Cycles) -> Cycles {
        Cycles(self.0 + more.0)
    }
}
