ghost use Rattle.std.specs.Prelude.{◌≡◌, ◌≤◌, ◌⊎◌, [], ℕ, List, Option, OnOk, OnErr, IsOk};
ghost use Rattle.std.specs.Io.{WritesAtMost};
ghost use Rattle.std.specs.Io.KnownBytes.{WriteAppends, Appends};
ghost use Rattle.pm_io.specs.Causes.{HasCause, HasStalled, Rose, AppendsPart};

use crate::Failed;

/// What bytes are written to.
pub trait Sink {
    /// The bytes that it took, where it tells them.
    ghost holds: { Self → Option (List ℕ) };

    /// How often it has failed, up to the last value of 64 bits.
    ghost faults: { Self → ℕ };

    /// How often it took nothing of a piece that isn't empty, up to the last value of 64 bits.
    ghost stalls: { Self → ℕ };

    /// Takes some bytes from the front of `piece` and answers how many. After `Failed` no byte was taken.
    fn put(&mut self, piece: &[u8]) -> Result<usize, Failed>
        ensures bound { WritesAtMost result piece.now }
        ensures bytes { WriteAppends (holds self.old) (holds self.new) result piece.now }
        ensures cause { HasCause (faults self.old) (faults self.new) result }
        ensures stall { HasStalled (stalls self.old) (stalls self.new) result piece.now };
}

/// Writes all bytes, in order and in as few puts as the sink allows. It takes no memory, and offers nothing to the
/// sink where there are no bytes. `Failed` where a put failed, or took nothing: a prefix was then taken that lacks at
/// least one byte.
pub fn write_whole<K: Sink>(out: &mut K, bytes: &[u8]) -> Result<(), Failed>
    ensures ok { OnOk result (Appends (K.holds out.old) (K.holds out.new) bytes.now) }
    ensures part { OnErr result (AppendsPart (K.holds out.old) (K.holds out.new) bytes.now) }
    ensures cause { OnErr result (Rose (K.faults out.old) (K.faults out.new) ⊎ Rose (K.stalls out.old) (K.stalls out.new)) }
    ensures sure { ¬ Rose (K.faults out.old) (K.faults out.new) → ¬ Rose (K.stalls out.old) (K.stalls out.new) → IsOk result }
    ensures faults { K.faults out.old ≤ K.faults out.new }
    ensures stalls { K.stalls out.old ≤ K.stalls out.new }
    ensures none { bytes.now ≡ [] → IsOk result × (out.new ≡ out.old) }
{
    let mut done = 0;
    while done < bytes.len() {
        let count = out.put(&bytes[done..])?;
        if count == 0 {
            return Err(Failed);
        }
        done += count;
    }
    Ok(())
}
