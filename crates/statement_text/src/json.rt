//! A pool's statement as JSON, and that of two.

ghost use Rattle.std.specs.Prelude.{◌≡◌, ◌++◌, codes, IfErr, IfOk, Some};
ghost use Rattle.serde_json.specs.Read.{read};
ghost use Rattle.statement_text.specs.StatementData.{json_of, json_of_settled, settled_data, statement_data};

use crate::values;
use commons::refusal::Refusal;
use pool_statement::settled::Settled;
use pool_statement::statement::Statement;
use std::alloc::{AllocError, Global};

/// The compact text of one pool's statement, with a line feed at its end.
///
/// Refused `OutOfMemory` where memory was refused.
pub fn pool_json(alloc: Global, statement: &Statement) -> Result<Vec<u8>, Refusal>
    ensures text { IfOk result (λ out. out.items ≡ json_of statement.now ++ codes "\n") }
    // A reader of JSON finds the statement in it.
    ensures reads_back { IfOk result (λ _. read (json_of statement.now) ≡ Some (statement_data statement.now)) }
    ensures memory { IfErr result (λ e. e ≡ Refusal.OutOfMemory) }
{
    match line(alloc, statement) {
        Ok(line) => Ok(line),
        Err(_) => Err(Refusal::OutOfMemory),
    }
}

/// The text with the line feed.
fn line(alloc: Global, statement: &Statement) -> Result<Vec<u8>, AllocError>
    ensures text { IfOk result (λ out. out.items ≡ json_of statement.now ++ codes "\n") }
    ensures reads_back { IfOk result (λ _. read (json_of statement.now) ≡ Some (statement_data statement.now)) }
{
    let mut out = compact(alloc, statement)?;
    out.push(b'\n')?;
    Ok(out)
}

/// The text without it.
fn compact(alloc: Global, statement: &Statement) -> Result<Vec<u8>, AllocError>
    ensures text { IfOk result (λ out. out.items ≡ json_of statement.now) }
    ensures reads_back { IfOk result (λ _. read (json_of statement.now) ≡ Some (statement_data statement.now)) }
{
    let text = values::statement(alloc, statement)?.to_vec(alloc)?;
    Ok(text)
}

/// The compact text of what a script's pools come to, with a line feed at its end: of one pool its
/// statement, and of two an object with `first` and `second`.
///
/// Refused `OutOfMemory` where memory was refused.
pub fn statement_json(alloc: Global, settled: &Settled) -> Result<Vec<u8>, Refusal>
    ensures text { IfOk result (λ out. out.items ≡ json_of_settled settled.now ++ codes "\n") }
    // A reader of JSON finds both statements in it.
    ensures reads_back { IfOk result (λ _. read (json_of_settled settled.now) ≡ Some (settled_data settled.now)) }
    ensures memory { IfErr result (λ e. e ≡ Refusal.OutOfMemory) }
{
    match settled_line(alloc, settled) {
        Ok(line) => Ok(line),
        Err(_) => Err(Refusal::OutOfMemory),
    }
}

/// The text with the line feed.
fn settled_line(alloc: Global, settled: &Settled) -> Result<Vec<u8>, AllocError>
    ensures text { IfOk result (λ out. out.items ≡ json_of_settled settled.now ++ codes "\n") }
    ensures reads_back { IfOk result (λ _. read (json_of_settled settled.now) ≡ Some (settled_data settled.now)) }
{
    let mut line = settled_compact(alloc, settled)?;
    line.push(b'\n')?;
    Ok(line)
}

/// The text without it.
fn settled_compact(alloc: Global, settled: &Settled) -> Result<Vec<u8>, AllocError>
    ensures text { IfOk result (λ out. out.items ≡ json_of_settled settled.now) }
    ensures reads_back { IfOk result (λ _. read (json_of_settled settled.now) ≡ Some (settled_data settled.now)) }
{
    let text = values::settled(alloc, settled)?.to_vec(alloc)?;
    Ok(text)
}
