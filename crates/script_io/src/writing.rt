//! A text, written whole or up to the first write that failed.
ghost use Rattle.std.specs.Prelude.{◌≡◌, ◌≤◌, ◌↔◌, ◌<◌, ◌∷◌, [], IfErr, IfNone, IfSome, IsErr, IsNone, OnOk, OnSome, false, length, take, true};
ghost use Rattle.std.specs.Io.KnownBytes.{Appends, Keeps};
ghost use Rattle.script_io.specs.Told.{EndsFailed, AddsCalls, Told, Took, Writes};

use crate::tally::Tally;
use crate::told::Sink;
use std::io::Write;

/// Writes a text: whole, or up to the first write that failed. The error is how many bytes of it
/// were written.
///
/// A write that takes a part is followed by one of the rest, and none follows a write that
/// answered an error or took nothing. A writer that a signal may interrupt stands in a `Retrying`.
/// Takes no memory.
pub fn write_out<W: Sink>(w: &mut Tally<W>, text: &[u8]) -> Result<(), usize>
    requires { w.old.failed ≡ false }
    // Exactly the text was added, or exactly so many of its first bytes.
    ensures whole { OnOk result (Appends (W.contents w.old.inner) (W.contents w.new.inner) text.now) }
    ensures part { IfErr result (λ count.
        Appends (W.contents w.old.inner) (W.contents w.new.inner) (take count text.now)) }
    ensures short { IfErr result (λ count. count < length text.now) }
    // The mark says which.
    ensures failed { IsErr result ↔ (w.new.failed ≡ true) }
    ensures sound { OnOk result (w.new.failed ≡ false) }
    // Each write took some of the bytes but for the last, which failed where the answer is an
    // error: where the writer tells what it answered, no other was made.
    ensures told { Writes (W.told w.old.inner) (W.told w.new.inner) result }
{
    let mut count = 0;
    while count < text.len() {
        match put(w, &text[count..]) {
            Some(taken) => count += taken,
            None => return Err(count),
        }
    }
    Ok(())
}

/// One write of some bytes, to a writer that hasn't failed. Answers how many it took, or `None`
/// where the write failed.
fn put<W: Sink>(w: &mut Tally<W>, rest: &[u8]) -> Option<usize>
    requires sound { w.old.failed ≡ false }
    requires some { 0 < length rest.now }
    ensures taken { IfSome result (λ count.
        Appends (W.contents w.old.inner) (W.contents w.new.inner) (take count rest.now)) }
    ensures fits { IfSome result (λ count. count ≤ length rest.now) }
    ensures moves { IfSome result (λ count. 0 < count) }
    ensures sound { OnSome result (w.new.failed ≡ false) }
    ensures kept { IfNone result (Keeps (W.contents w.old.inner) (W.contents w.new.inner)) }
    ensures failed { IsNone result ↔ (w.new.failed ≡ true) }
    ensures told { IfSome result (λ _.
        (call : Told) × Took call × AddsCalls (W.told w.old.inner) (W.told w.new.inner) (call ∷ [])) }
    ensures broken { IsNone result → EndsFailed (W.told w.old.inner) (W.told w.new.inner) [] }
{
    match w.write(rest) {
        Ok(0) | Err(_) => None,
        Ok(count) => Some(count),
    }
}
