// Sums that stop at `INF`.
ghost use Rattle.std.specs.Prelude.{◌≡◌, ◌+◌, ◌≤◌};
ghost use Rattle.service_model.specs.LocalSums.{capped};

use crate::INF;

/// The sum of two costs, `INF` where that is less.
pub fn capped_add(a: u64, b: u64) -> u64
    requires first { a ≤ INF }
    requires second { b ≤ INF }
    ensures { result ≡ capped (a + b) }
{
    (a + b).min(INF)
}
