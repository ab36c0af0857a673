// Numbers, as a text spells them.
ghost use Rattle.model.specs.Bytes.{numeral, change};
ghost use Rattle.writer.specs.Putting.{Puts};

use crate::sink::Sink;
use itoa::{Buffer, Integer};
use model::Numeral;

impl Sink<'_> {
    pub fn integer<I: Integer>(&mut self, n: I)
        ensures { Puts (I.text n) self.old self.new }
    {
        let mut digits = Buffer::new();
        let text = digits.format(n).as_bytes();
        // A digit alone, as many numbers are, is put sooner than it is copied.
        if text.len() == 1 {
            self.byte(text[0]);
        } else {
            self.bytes(text);
        }
    }

    // A number after another one, with its sign in front.
    fn change(&mut self, slope: i64)
        ensures { Puts (change slope) self.old self.new }
    {
        let sign = if slope < 0 { b'-' } else { b'+' };
        self.byte(sign);
        self.integer(slope.unsigned_abs());
    }

    // Inlined, as is `put_bracket`: calls cost time where numbers are small.
    #[inline]
    pub fn number(&mut self, n: Numeral)
        ensures { Puts (numeral n.constant n.slope) self.old self.new }
    {
        if n.slope == 0 {
            return self.integer(n.constant);
        }
        if n.constant == 0 {
            self.integer(n.slope);
        } else {
            self.integer(n.constant);
            self.change(n.slope);
        }
        self.byte(b'i');
    }
}
