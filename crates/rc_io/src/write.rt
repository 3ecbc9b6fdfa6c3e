//! Writing bytes whole.

ghost use Rattle.std.specs.Prelude.{◌≡◌, [], IsOk, OnOk, OnErr};
ghost use Rattle.rc_io.specs.Causes.{HasCause};
ghost use Rattle.rc_io.specs.Bytes.{grown, GrewByPrefix, GrewByLess};

use crate::Sink;
use thiserror::Error;

/// Not all bytes were written, for the sink failed.
#[derive(Clone, Copy, Debug, PartialEq, Eq, Error)]
#[error("the sink failed")]
pub struct WriteFault;

/// Appends all the bytes to the sink, in as many writes as it takes. Where there are none, it makes no call.
///
/// # Errors
///
/// `WriteFault` where a write fails, and only where the sink's count of faults rose. Some first bytes, but not
/// all, were appended by then, and nothing else.
pub fn write_all<K: Sink>(sink: &mut K, bytes: &[u8]) -> Result<(), WriteFault>
    ensures all { OnOk result (K.written sink.new ≡ grown (K.written sink.old) bytes.now) }
    ensures prefix { GrewByPrefix (K.written sink.old) (K.written sink.new) bytes.now }
    ensures cut { OnErr result (GrewByLess (K.written sink.old) (K.written sink.new) bytes.now) }
    ensures none { bytes.now ≡ [] → sink.new ≡ sink.old }
    ensures nothing { bytes.now ≡ [] → IsOk result }
    ensures cause { HasCause (K.faults sink.old) (K.faults sink.new) result }
{
    let mut at = 0;
    while at < bytes.len() {
        match sink.write(&bytes[at..]) {
            Ok(count) => at += count,
            Err(_) => return Err(WriteFault),
        }
    }
    Ok(())
}
