// A buffer to write into. No memory is asked for: a text is counted before it is written.
ghost use Rattle.std.specs.Prelude.{◌≡◌, ℕ, List, [], ◌∷◌};
ghost use Rattle.std.specs.Borrow.{MutBor};
ghost use Rattle.writer.specs.declared.sink.Sink.{Sink};
ghost use Rattle.writer.specs.Putting.{Puts};
ghost use Rattle.writer.specs.Writing.{Wrote};

use crate::writer::Unwritten;

/// A buffer that is filled from its start; what does not fit is only counted.
#[derive(Drop)]
pub struct Sink<'a> {
    out: &'a mut [u8],
    /// Where the next byte goes.
    pub end: usize,
}

impl<'a> Sink<'a> {
    pub fn new(out: &'a mut [u8]) -> Sink<'a>
        ensures same { result.out.ghost_name ≡ out.entry.ghost_name }
        ensures bytes { result.out.now ≡ out.old }
        ensures start { result.end ≡ 0 }
    {
        Sink { out, end: 0 }
    }

    // The place is read once: past the write it would be read again.
    pub fn byte(&mut self, byte: u8)
        ensures { Puts (byte ∷ []) self.old self.new }
    {
        let end = self.end;
        if end < self.out.len() {
            self.out[end] = byte;
        }
        self.end = end.saturating_add(1);
    }

    // All at once, or none: a text that is only measured costs an addition for each of its pieces.
    pub fn bytes(&mut self, bytes: &[u8])
        ensures { Puts bytes.now self.old self.new }
    {
        let end = self.end.saturating_add(bytes.len());
        if end <= self.out.len() {
            self.out[self.end..end].copy_from_slice(bytes);
        }
        self.end = end;
    }
}

/// Fills a buffer with what `put` puts, and answers its length. A buffer that is too short stays
/// wholly unchanged.
pub fn fill<F: Fn(&mut Sink)>(out: &mut [u8], put: F) -> Result<usize, Unwritten>
    requires { F.IsAlwaysCallable put }
    ensures { (text : List ℕ)
        → ((s t : MutBor Sink) → F.post put s tt t → Puts text s.now t.now)
        → Wrote text out.old result out.new }
{
    // Over no buffer the text is only measured.
    let mut nothing: [u8; 0] = [];
    let mut measured = Sink::new(&mut nothing);
    put(&mut measured);
    if out.len() < measured.end {
        return Err(Unwritten::ShortBuffer);
    }
    let mut sink = Sink::new(out);
    put(&mut sink);
    Ok(sink.end)
}
