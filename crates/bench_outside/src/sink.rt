//! A sink of bytes, which counts its faults.
ghost use Rattle.std.specs.Prelude.{ℕ, List, Option, OnOk, OnErr};
ghost use Rattle.bench_outside.specs.Causes.{HasCause};
ghost use Rattle.bench_outside.specs.Sink.{Appended, AppendedPart, Counted};

/// A write failed: the sink has counted it.
#[derive(Clone, Copy, Debug, PartialEq, Eq)]
pub struct Failed;

/// Where bytes are written, one behind the other.
pub trait Sink {
    // What was written, where the sink tells that.
    ghost written: { Self → Option (List ℕ) };

    // How many writes failed.
    ghost faults: { Self → ℕ };

    // How many writes were made, up to the greatest u64, where the sink counts them.
    ghost writes: { Self → Option ℕ };

    /// Writes all of these bytes. Takes no memory.
    fn write(&mut self, bytes: &[u8]) -> Result<(), Failed>
        ensures appended { OnOk result (Appended (written self.old) (written self.new) bytes.now) }

        // After a failure a first part of the bytes may stand there.
        ensures part { OnErr result (AppendedPart (written self.old) (written self.new) bytes.now) }
        ensures cause { HasCause (faults self.old) (faults self.new) result }

        // Whatever the answer, this was one write.
        ensures made { Counted (writes self.old) (writes self.new) 1 };
}
