//! The whole text of a statement.
ghost use Rattle.std.specs.Prelude.{◌≡◌, ◌++◌, IfErr, IfOk, OnOk};
ghost use Rattle.statement_text.specs.StatementText.{second_text, text_of, text_of_settled, total_line, totals_text};

use crate::caches::write_caches;
use crate::held::write_held;
use crate::segments::{write_desks, write_packets};
use commons::refusal::Refusal;
use element_text::{write_elements, write_number};
use pool_statement::settled::Settled;
use pool_statement::statement::Statement;
use std::alloc::{AllocError, Global};

/// The text of one pool's statement: its totals, the common list from the top, and then a line for
/// each cache, packet, desk with a packet, and held element.
///
/// Refused `OutOfMemory` where there is no room for it.
pub fn pool_text(alloc: Global, statement: &Statement) -> Result<Vec<u8>, Refusal>
    ensures text { IfOk result (λ v. v.items ≡ text_of statement.now) }
    ensures memory { IfErr result (λ e. e ≡ Refusal.OutOfMemory) }
{
    let mut out = Vec::new(alloc);
    match write_statement(&mut out, statement) {
        Ok(()) => Ok(out),
        Err(_) => Err(Refusal::OutOfMemory),
    }
}

/// The text of what a script's pools come to: the first pool's statement and, where there is a
/// second pool, the line `second` and its statement.
///
/// Refused `OutOfMemory` where there is no room for it.
pub fn statement_text(alloc: Global, settled: &Settled) -> Result<Vec<u8>, Refusal>
    ensures text { IfOk result (λ v. v.items ≡ text_of_settled settled.now) }
    ensures memory { IfErr result (λ e. e ≡ Refusal.OutOfMemory) }
{
    let mut out = Vec::new(alloc);
    match write_settled(&mut out, settled) {
        Ok(()) => Ok(out),
        Err(_) => Err(Refusal::OutOfMemory),
    }
}

fn write_settled(out: &mut Vec<u8>, settled: &Settled) -> Result<(), AllocError>
    ensures { OnOk result (out.new.items ≡ out.old.items ++ text_of_settled settled.now) }
{
    write_statement(out, &settled.first)?;
    match &settled.second {
        None => Ok(()),
        Some(second) => write_second(out, second),
    }
}

#[tactic(auto, unfolding(crate::specs::StatementText::second_text))]
fn write_second(out: &mut Vec<u8>, second: &Statement) -> Result<(), AllocError>
    ensures { OnOk result (out.new.items ≡ out.old.items ++ second_text second.now) }
{
    out.extend_from_slice(b"second\n")?;
    write_statement(out, second)
}

#[tactic(auto, unfolding(crate::specs::StatementText::text_of))]
fn write_statement(out: &mut Vec<u8>, statement: &Statement) -> Result<(), AllocError>
    ensures { OnOk result (out.new.items ≡ out.old.items ++ text_of statement.now) }
{
    write_totals(out, statement)?;
    out.extend_from_slice(b"common")?;
    write_elements(out, statement.common.as_slice())?;
    write_caches(out, statement.caches.as_slice())?;
    write_packets(out, statement.packets.as_slice())?;
    write_desks(out, statement.desks.as_slice())?;
    write_held(out, statement.held.as_slice())
}

/// The population, how many elements are available, and how many are in use.
#[tactic(auto, unfolding(crate::specs::StatementText::totals_text))]
fn write_totals(out: &mut Vec<u8>, statement: &Statement) -> Result<(), AllocError>
    ensures { OnOk result (out.new.items ≡ out.old.items ++ totals_text statement.now) }
{
    write_total(out, "population", statement.population)?;
    write_total(out, "available", statement.available)?;
    write_total(out, "in use", statement.in_use)
}

#[tactic(auto, unfolding(crate::specs::StatementText::total_line))]
fn write_total(out: &mut Vec<u8>, name: &str, count: u64) -> Result<(), AllocError>
    ensures { OnOk result (out.new.items ≡ out.old.items ++ total_line name.now count) }
{
    out.extend_from_slice(name.as_bytes())?;
    write_number(out, b" ", count)?;
    out.extend_from_slice(b"\n")
}
