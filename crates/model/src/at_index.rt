// Numbers and vectors at an index of the loop around them, exact for every number of 64 bits.
ghost use Rattle.std.specs.Prelude.{◌≡◌};
ghost use Rattle.model.specs.Placements.{linear, at as at_index};
ghost use Rattle.model.specs.Axes.{axes, exact};

use super::node::Linear;
use super::numeral::{Numeral, Wide};

impl Numeral {
    /// Its value at an index.
    pub fn at(self, index: u64) -> i128
        ensures { result ≡ linear self.constant self.slope index }
    {
        i128::from(self.constant) + i128::from(index) * i128::from(self.slope)
    }
}

impl Linear {
    /// Its numbers along x, y and z.
    pub fn axes(self) -> [Numeral; 3]
        ensures { result ≡ axes self }
    {
        let Linear { constant, slope } = self;
        [
            Numeral {
                constant: constant.x,
                slope: slope.x,
            },
            Numeral {
                constant: constant.y,
                slope: slope.y,
            },
            Numeral {
                constant: constant.z,
                slope: slope.z,
            },
        ]
    }

    /// The vector at an index.
    pub fn at(self, index: u64) -> Wide
        ensures { exact result ≡ at_index index self }
    {
        let [x, y, z] = self.axes();
        Wide {
            x: x.at(index),
            y: y.at(index),
            z: z.at(index),
        }
    }
}
