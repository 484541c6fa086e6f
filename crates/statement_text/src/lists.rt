//! A list of numbers as JSON.

ghost use Rattle.std.specs.Prelude.{◌≡◌, ◌++◌, codes, IfErr, IfOk, Some};
ghost use Rattle.serde_json.specs.Read.{read};
ghost use Rattle.statement_text.specs.StatementData.{counts_data, numbers_of};

use crate::values;
use commons::refusal::Refusal;
use std::alloc::{AllocError, Global};

/// The compact text of a list of numbers, with a line feed at its end.
///
/// Refused `OutOfMemory` where memory was refused.
pub fn numbers_json(alloc: Global, numbers: &[u32]) -> Result<Vec<u8>, Refusal>
    ensures text { IfOk result (λ out. out.items ≡ numbers_of numbers.now ++ codes "\n") }
    // A reader of JSON finds the numbers in it.
    ensures reads_back { IfOk result (λ _. read (numbers_of numbers.now) ≡ Some (counts_data numbers.now)) }
    ensures memory { IfErr result (λ e. e ≡ Refusal.OutOfMemory) }
{
    match line(alloc, numbers) {
        Ok(line) => Ok(line),
        Err(_) => Err(Refusal::OutOfMemory),
    }
}

/// The text with the line feed.
fn line(alloc: Global, numbers: &[u32]) -> Result<Vec<u8>, AllocError>
    ensures text { IfOk result (λ out. out.items ≡ numbers_of numbers.now ++ codes "\n") }
    ensures reads_back { IfOk result (λ _. read (numbers_of numbers.now) ≡ Some (counts_data numbers.now)) }
{
    let mut out = compact(alloc, numbers)?;
    out.push(b'\n')?;
    Ok(out)
}

/// The text without it.
fn compact(alloc: Global, numbers: &[u32]) -> Result<Vec<u8>, AllocError>
    ensures text { IfOk result (λ out. out.items ≡ numbers_of numbers.now) }
    ensures reads_back { IfOk result (λ _. read (numbers_of numbers.now) ≡ Some (counts_data numbers.now)) }
{
    let text = values::numbers(alloc, numbers)?.to_vec(alloc)?;
    Ok(text)
}
