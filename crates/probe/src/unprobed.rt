// Why a point is not probed.
ghost use Rattle.std.specs.Prelude.{◌≡◌};
ghost use Rattle.probe.specs.Probing.{refusal};

/// A caller is told the variant's number.
#[derive(Clone, Copy, PartialEq, Eq)]
pub enum Unprobed {
    /// A coordinate is too large.
    Far = 10,
    /// The point gets out of reach on its way to a primitive.
    OutOfReach = 17,
}

impl From<Unprobed> for u8 {
    ghost from_gives = { λ unprobed number. number ≡ refusal unprobed };

    fn from(unprobed: Unprobed) -> u8 {
        unprobed as u8
    }
}
