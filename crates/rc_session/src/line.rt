//! The lines of replies.

ghost use Rattle.std.specs.Prelude.{◌≡◌, ◌++◌, [], IfOk, OnOk};
ghost use Rattle.rc_session.specs.Replies.{replaced_line as replaced_line_of, refused_line as refused_line_of, swept_line as swept_line_of};

use itoa::Buffer;
use rc_fixed::{NoMemory, Text};
use rc_keys::Code;
use std::alloc::Global;

/// `// replaced NAME`, where the name is escaped.
///
/// # Errors
///
/// `NoMemory` for want of memory.
pub fn replaced_line(alloc: Global, name: &[u8]) -> Result<Vec<u8>, NoMemory>
    ensures { IfOk result (λ line. line.items ≡ replaced_line_of name.now) }
{
    let mut line = Vec::from_slice(alloc, b"// replaced ")?;
    line.extend_from_slice(name)?;
    line.push(b'\n')?;
    Ok(line)
}

/// `// refused line N Exx`.
///
/// # Errors
///
/// `NoMemory` for want of memory.
pub fn refused_line(alloc: Global, number: u32, code: Code) -> Result<Vec<u8>, NoMemory>
    ensures { IfOk result (λ line. line.items ≡ refused_line_of number code) }
{
    let mut line = Vec::from_slice(alloc, b"// refused line ")?;
    let mut digits = Buffer::new();
    line.extend_from_slice(digits.format(number).as_bytes())?;
    line.push(b' ')?;
    line.extend_from_slice(code.name().as_bytes())?;
    line.push(b'\n')?;
    Ok(line)
}

/// `// swept N`.
///
/// # Errors
///
/// `NoMemory` for want of memory.
pub fn swept_line(alloc: Global, count: u32) -> Result<Vec<u8>, NoMemory>
    ensures { IfOk result (λ line. line.items ≡ swept_line_of count) }
{
    let mut line = Vec::from_slice(alloc, b"// swept ")?;
    let mut digits = Buffer::new();
    line.extend_from_slice(digits.format(count).as_bytes())?;
    line.push(b'\n')?;
    Ok(line)
}
