//! A pool's snapshot as JSON, written and read.
#![tactic(auto)]

mod dumped;
pub mod fault;
mod flaws;
pub mod laws;
mod parts;
mod reading;
mod stack;
pub mod text;
mod values;

ghost use Rattle.std.specs.Prelude.{◌≡◌, ◌≢◌, ◌++◌, codes, IfErr, IfOk, IfSome, IsSomeAnd, OnOk, Some};
ghost use Rattle.json.specs.Json.{document};
ghost use Rattle.json.specs.Strict.{HasUniqueKeys};
ghost use Rattle.serde_json.specs.Read.{read};
ghost use Rattle.snapshot_json.specs.Reading.{IsFaultOf, IsNoSnapshotText, IsSnapshotText, IsWrongText};
ghost use Rattle.snapshot_json.specs.Repeats.{IsDataOf, IsNoRepeatingText, IsTextFaultOf, IsTextOf, doubled_by};
ghost use Rattle.snapshot_json.specs.Readings.{IsBroken, IsFlaw, IsKeyFault};
ghost use Rattle.snapshot_json.specs.SnapshotData.{IsSnapshotData, json_of, snapshot_data};

use commons::refusal::Refusal;
use fault::SnapshotFault;
use json::Scratch;
use reading::Reading;
use serde_json::{Error, Value};
use snapshot::snapshot::Snapshot;
use std::alloc::{AllocError, Global};
use text::{Double, Repeats, Text};

/// The most bytes of a snapshot's text: 128 for each of the 16,777,214 elements that a pool can have,
/// and 255 more.
///
/// An element takes up to 109 bytes, as a dump writes it: 73 as the one segment of a packet, with a
/// base (`[{"elem":16777213,"base":16777213,"off":65535,"len":65535,"buf":65535}],` and a line feed),
/// 6 for its count, and 30 for a guest (`{"worker":64,"elem":16777213},`). A link takes 9 more. What
/// is left is for the limits, the shares and the names of members.
pub const MAX_BYTES: usize = 2_147_483_647;

/// The snapshot whose text these bytes are, else what is wrong with them, or `OutOfMemory` where
/// memory was refused.
#[tactic(auto, using(crate::proofs::Repeats::repeats_text, crate::proofs::Repeats::repeats_told, crate::proofs::Repeats::told_fault))]
pub fn read_snapshot(alloc: Global, bytes: &[u8]) -> Result<Snapshot, SnapshotFault>
    ensures ok { IfOk result (λ s. IsSnapshotText bytes.now s) }
    ensures none { IfErr result (λ f. f ≢ SnapshotFault.OutOfMemory → IsNoSnapshotText bytes.now) }
    ensures tells { IfErr result (λ f. IsFaultOf bytes.now f) }
{
    match read_text(alloc, bytes) {
        Ok(Text::One(snapshot)) => Ok(snapshot),
        Ok(Text::Repeating(repeats)) => Err(doubled(&repeats)),
        Err(fault) => Err(fault),
    }
}

/// What is told of a list in which an element stands twice.
fn doubled(repeats: &Repeats) -> SnapshotFault
    ensures { result ≡ doubled_by repeats.now }
{
    let Double {
        elem,
        first,
        second,
    } = repeats.double;
    SnapshotFault::Doubled(elem, first as u64, second as u64)
}

/// The snapshot whose text these bytes are, or the one that they show beside a list in which elements
/// stand twice; else what is wrong with them, or `OutOfMemory` where memory was refused. It doesn't
/// answer `Doubled`.
#[tactic(auto, using(crate::proofs::Repeats::told_no_repeats))]
pub fn read_text(alloc: Global, bytes: &[u8]) -> Result<Text, SnapshotFault>
    ensures ok { IfOk result (λ text. IsTextOf bytes.now text) }
    ensures none { IfErr result (λ f. f ≢ SnapshotFault.OutOfMemory → IsNoSnapshotText bytes.now) }
    ensures unlisted { IfErr result (λ f. f ≢ SnapshotFault.OutOfMemory → IsNoRepeatingText bytes.now) }
    ensures tells { IfErr result (λ f. IsTextFaultOf bytes.now f) }
{
    if bytes.len() > MAX_BYTES {
        return Err(SnapshotFault::TooLong);
    }
    let text = match std::str::from_utf8(bytes) {
        Ok(text) => text,
        Err(fault) => return Err(SnapshotFault::NotJson(fault.valid_up_to() as u64)),
    };
    if let Some(read) = of_dump(alloc, text) {
        return Ok(read);
    }
    check_keys(alloc, text)?;
    let value = match Value::from_str(alloc, text) {
        Ok(value) => value,
        Err(fault) => {
            if fault.is_memory() {
                return Err(SnapshotFault::OutOfMemory);
            }
            return Err(SnapshotFault::NotJson(byte_of(bytes, &fault)));
        }
    };
    match reading::read(alloc, &value) {
        Ok(Reading::Whole(snapshot)) => Ok(Text::One(snapshot)),
        Ok(Reading::Twice(repeats)) => Ok(Text::Repeating(repeats)),
        Ok(Reading::Other) => Err(wrong(alloc, text)),
        Err(_) => Err(SnapshotFault::OutOfMemory),
    }
}

/// What this text says, as a dump writes it. Nothing where it is written otherwise, or where memory
/// was refused.
fn of_dump(alloc: Global, text: &str) -> Option<Text>
    ensures data { IfSome result (λ t. IsSomeAnd (read text.now) (λ d. IsDataOf d t)) }
    ensures once { IfSome result (λ _. IsSomeAnd (document text.now) HasUniqueKeys) }
{
    let listed = dumped::read_listed(alloc, text)?;
    match reading::with_words(alloc, listed) {
        Ok(Reading::Whole(snapshot)) => Some(Text::One(snapshot)),
        Ok(Reading::Twice(repeats)) => Some(Text::Repeating(repeats)),
        _ => None,
    }
}

/// Tests that a text is JSON in which no object has a key twice.
fn check_keys(alloc: Global, text: &str) -> Result<(), SnapshotFault>
    ensures ok { OnOk result (IsSomeAnd (document text.now) HasUniqueKeys) }
    ensures fault { IfErr result (λ f. IsKeyFault text.now f) }
{
    let mut scratch = Scratch::new(alloc);
    match json::Value::parse_strict(alloc, text, &mut scratch) {
        Ok(_) => Ok(()),
        Err(json::Error::OutOfMemory) => Err(SnapshotFault::OutOfMemory),
        Err(json::Error::DuplicateKey) => Err(wrong(alloc, text)),
        Err(json::Error::Invalid) => Err(broken(alloc, text)),
        Err(json::Error::TooLong) => unreachable!(),
    }
}

/// What is wrong with a text that isn't JSON.
fn broken(alloc: Global, text: &str) -> SnapshotFault
    ensures { IsBroken result }
{
    match Value::from_str(alloc, text) {
        Ok(_) => SnapshotFault::NotJson(0),
        Err(fault) => {
            if fault.is_memory() {
                return SnapshotFault::OutOfMemory;
            }
            SnapshotFault::NotJson(byte_of(text.as_bytes(), &fault))
        }
    }
}

/// The byte at which the kit's reader found a fault, from its line and its column, both from 1. At
/// the end of a text it counts no column more.
fn byte_of(bytes: &[u8], fault: &Error) -> u64 {
    let line = fault.line();
    let mut begun: usize = 1;
    let mut at: u64 = 0;
    for byte in bytes {
        if begun >= line {
            break;
        }
        at = at.saturating_add(1);
        if *byte == b'\n' {
            begun = begun.saturating_add(1);
        }
    }
    let end = bytes.len() as u64;
    let byte = at.saturating_add(fault.column().saturating_sub(1) as u64);
    if fault.is_eof() && byte.saturating_add(1) == end {
        end
    } else {
        byte
    }
}

/// What is wrong with a text of JSON.
fn wrong(alloc: Global, text: &str) -> SnapshotFault
    ensures flaw { IsFlaw result }
    ensures told { IsWrongText text.now → IsFaultOf text.now result }
{
    match flaws::first(alloc, text) {
        Ok(flaw) => SnapshotFault::Wrong(flaw),
        Err(_) => SnapshotFault::OutOfMemory,
    }
}

/// The compact text of a snapshot, with its stack as words, and with a line feed at its end.
///
/// Refused `OutOfMemory` where memory was refused.
pub fn snapshot_json(alloc: Global, snapshot: &Snapshot) -> Result<Vec<u8>, Refusal>
    ensures text { IfOk result (λ out. out.items ≡ json_of snapshot.now ++ codes "\n") }
    // A reader of JSON finds the snapshot's data in it.
    ensures reads_back { IfOk result
        (λ _. read (json_of snapshot.now) ≡ Some (snapshot_data snapshot.now)) }
    ensures own { IfOk result (λ _. IsSnapshotData (snapshot_data snapshot.now) snapshot.now) }
    ensures memory { IfErr result (λ e. e ≡ Refusal.OutOfMemory) }
{
    match line(alloc, snapshot) {
        Ok(line) => Ok(line),
        Err(_) => Err(Refusal::OutOfMemory),
    }
}

/// The text with the line feed.
fn line(alloc: Global, snapshot: &Snapshot) -> Result<Vec<u8>, AllocError>
    ensures text { IfOk result (λ out. out.items ≡ json_of snapshot.now ++ codes "\n") }
    ensures reads_back { IfOk result
        (λ _. read (json_of snapshot.now) ≡ Some (snapshot_data snapshot.now)) }
{
    let mut out = compact(alloc, snapshot)?;
    out.push(b'\n')?;
    Ok(out)
}

/// The text without it.
fn compact(alloc: Global, snapshot: &Snapshot) -> Result<Vec<u8>, AllocError>
    ensures text { IfOk result (λ out. out.items ≡ json_of snapshot.now) }
    ensures reads_back { IfOk result
        (λ _. read (json_of snapshot.now) ≡ Some (snapshot_data snapshot.now)) }
{
    let text = values::snapshot(alloc, snapshot)?.to_vec(alloc)?;
    Ok(text)
}
