//! Reading a file whole.

ghost use Rattle.std.specs.Prelude.{◌≡◌, ◌≢◌, ◌+◌, ◌<◌, ◌≤◌, ◌^◌, ◌++◌, List, ℕ, Some, None, length, IsTrue, IfOk, OnOk, OnErr, IsErrOf};
ghost use Rattle.rc_io.specs.Causes.{Rose};

use crate::Files;
use rc_fixed::List;
use std::alloc::Global;
use thiserror::Error;

/// Why a file was not read whole.
#[derive(Clone, Copy, Debug, PartialEq, Eq, Error)]
pub enum ReadEnd {
    /// The file failed.
    #[error("the file failed")]
    Fault,
    /// The file has more bytes than were to be read.
    #[error("the file is too long")]
    Long,
    /// There was no memory for the bytes.
    #[error("out of memory")]
    NoMemory,
}

/// How many bytes one read asks for.
const PIECE: usize = 65_536;

/// Reads a file from its front to its end, at most `room` bytes.
///
/// # Errors
///
/// `Fault` only where the count of this name rose, and always for a name that isn't there, where the files tell what they
/// hold. `Long` only where the file has more than `room` bytes. `NoMemory` for want of memory, which no clause can tell.
pub fn read_whole<F: Files>(
    alloc: Global,
    files: &mut F,
    name: &str,
    room: u64,
) -> Result<List<u8>, ReadEnd>
    requires { room ≤ 2 ^ 30 }
    ensures tells { F.tells files.new ≡ F.tells files.old }
    ensures same { (n : List ℕ) → F.text files.new n ≡ F.text files.old n }
    ensures short { IfOk result (λ bytes. length bytes ≤ room) }
    ensures whole { IfOk result (λ bytes. IsTrue (F.tells files.old)
        → F.text files.old name.now ≡ Some bytes) }
    ensures long { IsErrOf result ReadEnd.Long → IsTrue (F.tells files.old)
        → (bytes : List ℕ) × (F.text files.old name.now ≡ Some bytes) × (room < length bytes) }
    ensures absent { IsTrue (F.tells files.old) → F.text files.old name.now ≡ None
        → IsErrOf result ReadEnd.Fault }
    ensures later { (n : List ℕ) → F.faults files.old n ≤ F.faults files.new n }
    ensures fault { IsErrOf result ReadEnd.Fault
        → Rose (F.faults files.old name.now) (F.faults files.new name.now) }
{
    match files.begin(name) {
        Ok(()) => {}
        Err(_) => return Err(ReadEnd::Fault),
    }
    let mut buffer = new_buffer(alloc)?;
    let mut bytes = Vec::new(alloc);
    'reads: loop {
        match files.read(&mut buffer) {
            Ok(0) => return Ok(List::from_vec(bytes)),
            Ok(count) => append(&mut bytes, &buffer[..count], room)?,
            Err(_) => return Err(ReadEnd::Fault),
        }
    }
}

/// The bytes that one read fills.
fn new_buffer(alloc: Global) -> Result<Vec<u8>, ReadEnd>
    ensures some { IfOk result (λ buffer. 0 < length buffer.items) }
    ensures cause { OnErr result (result ≡ Err ReadEnd.NoMemory) }
{
    vec![in alloc; 0; PIECE].map_err(|_| ReadEnd::NoMemory)
}

/// Appends a piece where no more than `room` bytes are held then.
fn append(bytes: &mut Vec<u8>, piece: &[u8], room: u64) -> Result<(), ReadEnd>
    requires { length bytes.old.items ≤ room }
    ensures all { OnOk result (bytes.new.items ≡ bytes.old.items ++ piece.now) }
    ensures short { OnOk result (length bytes.new.items ≤ room) }
    ensures long { IsErrOf result ReadEnd.Long → room < length bytes.old.items + length piece.now }
    ensures fault { result ≢ Err ReadEnd.Fault }
{
    if piece.len() as u64 > room - bytes.len() as u64 {
        return Err(ReadEnd::Long);
    }
    bytes
        .extend_from_slice(piece)
        .map_err(|_| ReadEnd::NoMemory)
}
