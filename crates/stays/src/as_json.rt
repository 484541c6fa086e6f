//! The statement and what stays, as JSON.

ghost use Rattle.std.specs.Prelude.{◌≡◌, ◌++◌, codes, IfErr, IfOk};
ghost use Rattle.serde_json.specs.Written.{compact_text};
ghost use Rattle.stays.specs.StayData.{since_json_of, stays_data};
ghost use Rattle.stays.specs.inside.JsonLine.{line_of};

use crate::staying::stays;
use crate::used::Used;
use crate::values;
use commons::refusal::Refusal;
use pool_statement::statement::Statement;
use statement_text::pool_json;
use std::alloc::{AllocError, Global};

/// One line of JSON: an object with the newer of two statements of one pool, as `pool_json` has it,
/// and a list of the packets that stay.
///
/// Refused `OutOfMemory` where memory was refused.
pub fn since_json(alloc: Global, newer: &Statement, older: &Statement) -> Result<Vec<u8>, Refusal>
    ensures text { IfOk result (λ out. out.items ≡ since_json_of newer.now older.now ++ codes "\n") }
    ensures memory { IfErr result (λ e. e ≡ Refusal.OutOfMemory) }
{
    let stay = stays(alloc, newer, older)?;
    let mut statement = pool_json(alloc, newer)?;
    statement.pop();
    match line(alloc, statement.as_slice(), stay.as_slice()) {
        Ok(line) => Ok(line),
        Err(_) => Err(Refusal::OutOfMemory),
    }
}

/// The line with a statement's JSON.
fn line(alloc: Global, statement: &[u8], stay: &[Used]) -> Result<Vec<u8>, AllocError>
    ensures { IfOk result (λ out. out.items ≡ line_of statement.now stay.now) }
{
    let stay = compact(alloc, stay)?;
    let mut out = Vec::new(alloc);
    out.extend_from_slice(b"{\"statement\":")?;
    out.extend_from_slice(statement)?;
    out.extend_from_slice(b",\"stays\":")?;
    out.extend_from_slice(stay.as_slice())?;
    out.extend_from_slice(b"}\n")?;
    Ok(out)
}

/// The JSON of what stays.
fn compact(alloc: Global, stay: &[Used]) -> Result<Vec<u8>, AllocError>
    ensures { IfOk result (λ out. out.items ≡ compact_text (stays_data stay.now)) }
{
    let text = values::stays(alloc, stay)?.to_vec(alloc)?;
    Ok(text)
}
