//! What C is told of a pool that was closed.

ghost use Rattle.std.specs.Prelude.{◌≡◌, ◌++◌, None, codes, length};
ghost use Rattle.statement_text.specs.StatementData.{json_of};
ghost use Rattle.statement_text.specs.StatementText.{text_of};
ghost use Rattle.mbufpool_c.specs.Told.{Fills, ShowsCounts, ShowsCountsOf, TellsLost, TellsText, TellsTextOf, counts_in, statement_in};

use crate::ending::Ending;
use crate::ending_handle::EndingHandle;
use commons::refusal::Refusal;
use pool_statement::statement::Statement;
use statement_text::{pool_json, pool_text};
use std::alloc::Global;

/// How many elements a pool has, how many are available, and how many are in use.
#[repr(C)]
#[derive(Clone, Copy)]
pub struct Counts {
    pub population: u64,
    pub available: u64,
    pub in_use: u64,
}

/// The counts of a statement, where there is one.
fn show_counts(statement: &Option<Statement>, out: &mut Counts) -> u32
    ensures { ShowsCountsOf statement.now result out.old out.new }
{
    match statement {
        None => Refusal::StrangerShare.number(),
        Some(statement) => {
            *out = Counts {
                population: statement.population,
                available: statement.available,
                in_use: statement.in_use,
            };
            0
        }
    }
}

/// How many elements the pool has, how many are available and how many are in use, where its
/// statement is there.
#[unsafe(no_mangle)]
pub extern "C" fn mbufpool_statement_counts(
    alloc: Global,
    ending: &mut EndingHandle,
    out: &mut Counts,
) -> u32
    ensures kept { ending.new.value ≡ ending.old.value }
    ensures told { ShowsCounts ending.old.value result out.old out.new }
{
    match ending.take(alloc) {
        None => Refusal::StrangerShare.number(),
        Some(found) => {
            let status = show_counts(&found.statement, out);
            ending.put(found);
            status
        }
    }
}

/// Gives as many bytes as there is room for, and answers how many there are.
fn give_bytes(bytes: &[u8], buf: &mut [u8]) -> usize
    ensures all { result ≡ length bytes.now }
    ensures fills { Fills bytes.now buf.old buf.new }
{
    for k in 0..bytes.len().min(buf.len()) {
        buf[k] = bytes[k];
    }
    bytes.len()
}

/// Gives as many numbers as there is room for, and answers how many there are.
fn give_numbers(numbers: &[u32], out: &mut [u32]) -> usize
    ensures all { result ≡ length numbers.now }
    ensures fills { Fills numbers.now out.old out.new }
{
    for k in 0..numbers.len().min(out.len()) {
        out[k] = numbers[k];
    }
    numbers.len()
}

/// Gives what there is room for of a statement's text, and answers how long it is: 0 where there is
/// no statement, or memory was refused.
fn give_text(alloc: Global, statement: &Option<Statement>, buf: &mut [u8]) -> usize
    ensures { TellsTextOf text_of statement.now result buf.old buf.new }
{
    match statement {
        None => 0,
        Some(statement) => match pool_text(alloc, statement) {
            Ok(text) => give_bytes(text.as_slice(), buf),
            Err(_) => 0,
        },
    }
}

/// The statement as text, line by line: as much as there is room for. Answers how many bytes it
/// has, or 0 where there is no statement, or memory was refused.
#[unsafe(no_mangle)]
pub extern "C" fn mbufpool_statement_text(
    alloc: Global,
    ending: &mut EndingHandle,
    buf: &mut [u8],
) -> usize
    ensures kept { ending.new.value ≡ ending.old.value }
    ensures told { TellsText text_of ending.old.value result buf.old buf.new }
{
    match ending.take(alloc) {
        None => 0,
        Some(found) => {
            let told = give_text(alloc, &found.statement, buf);
            ending.put(found);
            told
        }
    }
}

/// Gives what there is room for of a statement as JSON, and answers how long it is: 0 where there
/// is none, or memory was refused.
fn give_json(alloc: Global, statement: &Option<Statement>, buf: &mut [u8]) -> usize
    ensures { TellsTextOf (λ s. json_of s ++ codes "\n") statement.now result buf.old buf.new }
{
    match statement {
        None => 0,
        Some(statement) => match pool_json(alloc, statement) {
            Ok(text) => give_bytes(text.as_slice(), buf),
            Err(_) => 0,
        },
    }
}

/// The statement as one line of JSON: as much as there is room for. Answers how many bytes it has,
/// or 0 where there is no statement, or memory was refused.
#[unsafe(no_mangle)]
pub extern "C" fn mbufpool_statement_json(
    alloc: Global,
    ending: &mut EndingHandle,
    buf: &mut [u8],
) -> usize
    ensures kept { ending.new.value ≡ ending.old.value }
    ensures told { TellsText (λ s. json_of s ++ codes "\n") ending.old.value result buf.old buf.new }
{
    match ending.take(alloc) {
        None => 0,
        Some(found) => {
            let told = give_json(alloc, &found.statement, buf);
            ending.put(found);
            told
        }
    }
}

/// The elements that are lost, ascending: as many as there is room for. Answers how many there are.
#[unsafe(no_mangle)]
pub extern "C" fn mbufpool_statement_lost(
    alloc: Global,
    ending: &mut EndingHandle,
    out: &mut [u32],
) -> usize
    ensures kept { ending.new.value ≡ ending.old.value }
    ensures told { TellsLost ending.old.value result out.old out.new }
{
    match ending.take(alloc) {
        None => 0,
        Some(found) => {
            let told = give_numbers(found.lost.as_slice(), out);
            ending.put(found);
            told
        }
    }
}

/// Frees what a pool left: the handle has nothing then.
#[unsafe(no_mangle)]
pub extern "C" fn mbufpool_statement_end(alloc: Global, ending: &mut EndingHandle)
    ensures { ending.new.value ≡ None }
{
    drop(ending.take(alloc));
}
