//! Bytes, read to the end or to a limit: of a script one more than it may have.
ghost use Rattle.std.specs.Prelude.{◌≡◌, ◌↔◌, ◌+◌, ◌≤◌, ◌<◌, IfOk, IfSome, OnOk, false, take, true, vec_len};
ghost use Rattle.std.specs.Io.KnownBytes.{Consumes, IsAtEnd};
ghost use Rattle.script_io.specs.Readings.{LosesSome, ReadsMore};

use crate::tally::Tally;
use crate::told::Source;
use script_text::MAX_BYTES;
use std::alloc::Global;
use std::io::Read;

/// The most bytes of a script that are read: one more than it may have.
pub const BYTES_READ: usize = MAX_BYTES + 1;

/// The most bytes that one read asks for.
const PIECE: usize = 8_192;

/// Why nothing is read.
#[derive(Clone, Copy, Debug, PartialEq, Eq)]
pub enum ReadFault {
    /// The reader answered an error.
    Device,
    /// Memory was refused.
    Memory,
}

/// Reads all bytes of a reader, or this many of more.
///
/// `Device` exactly where a read answered an error, which ends the reading, whatever its kind; a
/// reader that a signal may interrupt stands in a `Retrying`. `Memory` only where memory was
/// refused for bytes that were read: an empty reader needs none. After either no byte is answered,
/// and what was read so far is gone from the reader.
pub fn read_bytes<R: Source>(
    alloc: Global,
    r: &mut Tally<R>,
    limit: usize,
) -> Result<Vec<u8>, ReadFault>
    requires { r.old.failed ≡ false }

    // The bytes are the reader's, all of them or as many as are read at most.
    ensures bytes { IfOk result (λ bytes. IfSome (R.remaining r.old.inner)
        (λ known. bytes.items ≡ take limit known)) }
    ensures most { IfOk result (λ bytes. vec_len bytes ≤ limit) }
    // No byte is left out, and none read that isn't answered.
    ensures taken { IfOk result (λ bytes.
        Consumes (R.remaining r.old.inner) (R.remaining r.new.inner) bytes.items) }
    ensures end { IfOk result (λ bytes.
        vec_len bytes < limit → IsAtEnd (R.remaining r.new.inner)) }

    // The reader failed, or memory was refused.
    ensures device { (result ≡ Err ReadFault.Device) ↔ (r.new.failed ≡ true) }
    ensures sound { OnOk result (r.new.failed ≡ false) }
    ensures memory { result ≡ Err ReadFault.Memory → LosesSome
        (R.remaining r.old.inner) (R.remaining r.new.inner) }
{
    let mut bytes = Vec::new(alloc);
    while bytes.len() < limit {
        let count = read_more(r, &mut bytes, limit)?;
        if count == 0 {
            return Ok(bytes);
        }
    }
    Ok(bytes)
}

/// One read, of which the bytes are put behind those that are there. Answers how many it gave: none
/// only where the reader is at its end.
fn read_more<R: Source>(
    r: &mut Tally<R>,
    bytes: &mut Vec<u8>,
    limit: usize,
) -> Result<usize, ReadFault>
    requires sound { r.old.failed ≡ false }
    requires room { vec_len bytes.old < limit }
    ensures more { IfOk result (ReadsMore
        (R.remaining r.old.inner) (R.remaining r.new.inner) bytes.old.items bytes.new.items) }
    ensures most { vec_len bytes.new ≤ limit }
    ensures sound { OnOk result (r.new.failed ≡ false) }
    ensures counted { IfOk result (λ count. vec_len bytes.new ≡ vec_len bytes.old + count) }
    ensures device { (result ≡ Err ReadFault.Device) ↔ (r.new.failed ≡ true) }
    ensures memory { result ≡ Err ReadFault.Memory → LosesSome
        (R.remaining r.old.inner) (R.remaining r.new.inner) }
{
    let mut piece = [0; PIECE];
    let most = PIECE.min(limit - bytes.len());
    match r.read(&mut piece[..most]) {
        Ok(count) => match bytes.extend_from_slice(&piece[..count]) {
            Ok(()) => Ok(count),
            Err(_) => Err(ReadFault::Memory),
        },
        Err(_) => Err(ReadFault::Device),
    }
}
