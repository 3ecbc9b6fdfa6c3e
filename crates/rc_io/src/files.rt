//! What files are.

ghost use Rattle.std.specs.Prelude.{◌≡◌, ◌↔◌, ◌<◌, ◌≤◌, ◌++◌, [], List, ℕ, Bool, Option, Some, length, take, IsTrue, IfOk, OnOk, OnErr};
ghost use Rattle.rc_io.specs.Causes.{Rose};

use thiserror::Error;

/// A call on a file or a sink failed. The object's count of faults rose.
#[derive(Clone, Copy, Debug, PartialEq, Eq, Error)]
#[error("the file or the sink failed")]
pub struct Failed;

/// Files by name, of which one at a time is read.
///
/// Names and contents are lists of bytes. What the files hold is told or isn't: the clauses on contents hold
/// where it is told.
pub trait Files {
    /// Whether it tells what its files hold.
    ghost tells: { Self → Bool };

    /// What the file of a name holds; none where there is no such file.
    ghost text: { Self → List ℕ → Option (List ℕ) };

    /// The bytes of the begun file that are not yet read.
    ghost rest: { Self → List ℕ };

    /// Whether the begun file has that name.
    ghost begun: { Self → List ℕ → Type 0 };

    /// How often files of that name have failed. It never falls.
    ghost faults: { Self → List ℕ → ℕ };

    /// Begins a file at its front, also one that was read before. A name that isn't there fails. After a failure
    /// nothing is said of which file is begun: begin one before the next read.
    ///
    /// # Errors
    ///
    /// `Failed`, only where the count of this name rose.
    fn begin(&mut self, name: &str) -> Result<(), Failed>
        ensures tells { tells self.new ≡ tells self.old }
        ensures text { (n : List ℕ) → text self.new n ≡ text self.old n }
        ensures begun { OnOk result (begun self.new name.now) }
        ensures rest { OnOk result (IsTrue (tells self.old)
            → text self.old name.now ≡ Some (rest self.new)) }
        ensures later { (n : List ℕ) → faults self.old n ≤ faults self.new n }
        ensures cause { OnErr result (Rose (faults self.old name.now) (faults self.new name.now)) };

    /// Moves the next bytes of the begun file to the front of the buffer, and answers how many they are: 0
    /// exactly at the end of the file.
    ///
    /// # Errors
    ///
    /// `Failed`, only where the count of each name that the begun file has rose. No byte is lost.
    fn read(&mut self, buffer: &mut [u8]) -> Result<usize, Failed>
        requires room { 0 < length buffer.old }
        requires begun { (n : List ℕ) × begun self.old n }
        ensures tells { tells self.new ≡ tells self.old }
        ensures text { (n : List ℕ) → text self.new n ≡ text self.old n }
        ensures begun { (n : List ℕ) → begun self.new n ↔ begun self.old n }
        ensures count { IfOk result (λ count. count ≤ length buffer.new) }
        ensures bytes { IfOk result (λ count. IsTrue (tells self.old)
            → rest self.old ≡ take count buffer.new ++ rest self.new) }
        ensures end { IfOk result (λ count. IsTrue (tells self.old)
            → (count ≡ 0) ↔ (rest self.old ≡ [])) }
        ensures err { OnErr result (rest self.new ≡ rest self.old) }
        ensures later { (n : List ℕ) → faults self.old n ≤ faults self.new n }
        ensures cause { OnErr result ((n : List ℕ) → begun self.old n
            → Rose (faults self.old n) (faults self.new n)) };
}
