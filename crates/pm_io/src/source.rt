ghost use Rattle.std.specs.Prelude.{ℕ, List, Option};
ghost use Rattle.std.specs.Io.{ReadsAtMost};
ghost use Rattle.std.specs.Io.KnownBytes.{ReadConsumes};
ghost use Rattle.pm_io.specs.Causes.{HasCause};

/// The outside failed. Which fault it was is not told.
#[derive(Clone, Copy, Debug, PartialEq, Eq)]
pub struct Failed;

/// What bytes are read from.
pub trait Source {
    /// The bytes that are left, where it tells them.
    ghost held: { Self → Option (List ℕ) };

    /// How often it has failed, up to the last value of 64 bits.
    ghost faults: { Self → ℕ };

    /// Reads some of the bytes that are left into the front of `buf` and answers how many. 0 for a buffer that isn't
    /// empty is the end of the input. After `Failed` no byte was taken, and what `buf` holds is not told.
    fn take(&mut self, buf: &mut [u8]) -> Result<usize, Failed>
        ensures bound { ReadsAtMost result buf.new }
        ensures bytes { ReadConsumes (held self.old) (held self.new) result buf.new }
        ensures cause { HasCause (faults self.old) (faults self.new) result };
}
