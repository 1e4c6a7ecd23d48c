//! Objects that pour bytes.

ghost use Rattle.std.specs.Prelude.{◌≡◌, ◌≤◌, length, IfOk, OnOk, OnErr};
ghost use Rattle.xdr_core.specs.Sources.{GoesOn, Halts};
ghost use Rattle.xdr_core.specs.Poured.{Stream, Pours};

use crate::error::Stopped;

/// Pours bytes into a buffer, piece by piece.
pub trait Pour {
    /// The type of what no call changes.
    ghost Kept: { Type 0 };

    /// The bytes that are left, if they are told, and what calls do to all else.
    ghost seen: { Self → Stream Kept };

    /// How often it stopped, or `u64::MAX` if it was more often.
    fn stops(&self) -> u64
        ensures { result ≡ (seen self.now).standing.stops };

    /// Pours the next bytes into the start of the buffer, and returns their number. The number is 0 only at the end, or for
    /// an empty buffer.
    fn pour(&mut self, buf: &mut [u8]) -> Result<usize, Stopped>
        // Also if the bytes are not told.
        ensures within { IfOk result (λ n. n ≤ length buf.new) }
        ensures len { length buf.new ≡ length buf.old }
        ensures poured { IfOk result (Pours (seen self.old) (seen self.new) buf.new) }
        ensures ok { OnOk result (GoesOn (seen self.old).standing (seen self.new).standing) }
        ensures err { OnErr result (Halts (seen self.old).standing (seen self.new).standing) };
}
