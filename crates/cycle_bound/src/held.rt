//! Sums and products of cycles, held once they are more than a bound may be.
ghost use Rattle.std.specs.Prelude.{◌≡◌, ◌+◌, ◌*◌};
ghost use Rattle.cycle_bound.specs.Held.{held};

/// The greatest bound, in cycles.
pub const MOST_BOUND: u64 = 1 << 62;

// where numbers are held
const HELD: u64 = MOST_BOUND + 1;

/// The sum.
pub fn plus(a: u64, b: u64) -> u64
    ensures { result ≡ held (a + b) }
{
    a.saturating_add(b).min(HELD)
}

/// The product.
pub fn times(count: u64, a: u64) -> u64
    ensures { result ≡ held (count * a) }
{
    count.saturating_mul(a).min(HELD)
}
