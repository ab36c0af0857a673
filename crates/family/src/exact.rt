// Bounds and products of 64 bits, exact for every number.
ghost use Rattle.std.specs.Prelude.{◌≡◌, ◌*ℤ◌};
ghost use Rattle.family.specs.Reaching.{between};

pub(crate) fn within(least: i64, value: i64, most: i64) -> bool
    ensures { result ≡ between least value most }
{
    least <= value && value <= most
}

pub(crate) fn product(a: i64, b: i64) -> i128
    ensures { result ≡ a *ℤ b }
{
    i128::from(a) * i128::from(b)
}
