// Whether vectors are too large.
ghost use Rattle.std.specs.Prelude.{◌≡◌};
ghost use Rattle.model.specs.Legality.{beyond, some_axis};

use super::node::Triple;

impl Triple {
    /// Whether one of its numbers is farther from 0 than `most`. `program` has the test of 128 bits; these
    /// need no widening.
    pub fn is_beyond(self, most: u32) -> bool
        ensures { result ≡ some_axis (beyond most) self }
    {
        let most = u64::from(most);
        let Triple { x, y, z } = self;
        most < x.unsigned_abs() || most < y.unsigned_abs() || most < z.unsigned_abs()
    }
}
