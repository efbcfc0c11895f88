ghost use Rattle.std.specs.Prelude.{◌≡◌};
ghost use Rattle.shared_order.specs.Program.{first, others};

/// The value of the next load, or 0 where there is none left.
pub fn first(values: &[u32]) -> u32
    ensures { result ≡ first values.now }
{
    match values {
        [value, ..] => *value,
        [] => 0,
    }
}

/// The values of the loads after it.
pub fn others(values: &[u32]) -> &[u32]
    ensures { result.now ≡ others values.now }
{
    match values {
        [_, rest @ ..] => rest,
        [] => &[],
    }
}
