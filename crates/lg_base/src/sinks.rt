//! Where bytes are written.
ghost use Rattle.std.specs.Prelude.{◌≡◌, ℕ, List, [], OnOk, OnErr, IsOk};
ghost use Rattle.std.specs.declared.option.Option.{Option};
ghost use Rattle.std.specs.Io.KnownBytes.{Appends};
ghost use Rattle.lg_base.specs.Sinks.{AppendsFront, HasWriteCause};

use std::io;
use thiserror::Error;

/// A write failed: the count of faults rose.
#[derive(Clone, Copy, Debug, PartialEq, Eq, Error)]
#[error("the bytes cannot be written")]
pub struct SinkFault;

impl From<io::Error> for SinkFault {
    fn from(_cause: io::Error) -> SinkFault {
        SinkFault
    }
}

/// A place that bytes are written to.
///
/// Contracts see the bytes written, where the object tells them, and a count of faults, which never falls and stops at
/// 2^64 - 1.
pub trait Sink {
    ghost written: { Self → Option (List ℕ) };

    ghost faults: { Self → ℕ };

    /// Writes all these bytes, or at a fault a front part of them. It takes no memory.
    fn put(&mut self, bytes: &[u8]) -> Result<(), SinkFault>
        ensures whole { OnOk result (Appends (written self.old) (written self.new) bytes.now) }
        ensures front { OnErr result (AppendsFront (written self.old) (written self.new) bytes.now) }
        ensures cause { HasWriteCause (faults self.old) (faults self.new) result }

        // a call without bytes changes nothing
        ensures nothing { bytes.now ≡ [] → IsOk result × (written self.new ≡ written self.old)
            × (faults self.new ≡ faults self.old) };
}
