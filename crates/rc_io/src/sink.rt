//! What a sink is.

ghost use Rattle.std.specs.Prelude.{◌≡◌, ◌<◌, ◌≤◌, List, ℕ, Option, length, take, IfOk, OnErr};
ghost use Rattle.rc_io.specs.Causes.{HasCause};
ghost use Rattle.rc_io.specs.Bytes.{grown};

use crate::Failed;

/// What bytes are appended to.
pub trait Sink {
    /// The bytes that were appended, where they are told.
    ghost written: { Self → Option (List ℕ) };

    /// How often it has failed. It never falls.
    ghost faults: { Self → ℕ };

    /// Appends the first bytes of the piece, at least one, and answers how many they are.
    ///
    /// # Errors
    ///
    /// `Failed`, only where the count of faults rose. Nothing is appended then.
    fn write(&mut self, piece: &[u8]) -> Result<usize, Failed>
        requires { 0 < length piece.now }
        ensures some { IfOk result (λ count. 0 < count) }
        ensures count { IfOk result (λ count. count ≤ length piece.now) }
        ensures bytes { IfOk result (λ count.
            written self.new ≡ grown (written self.old) (take count piece.now)) }
        ensures err { OnErr result (written self.new ≡ written self.old) }
        ensures cause { HasCause (faults self.old) (faults self.new) result };
}
