//! The parts of a statement as JSON values.

ghost use Rattle.std.specs.Prelude.{◌≡◌, IfOk, Some, map};
ghost use Rattle.serde_json.specs.Data.{array};
ghost use Rattle.serde_json.specs.View.{items_of, view};
ghost use Rattle.statement_text.specs.StatementData.{counts_data, segs_data, settled_data, settled_with, statement_data};

use commons::packet::Seg;
use commons::seq::Seq;
use pool_statement::settled::Settled;
use pool_statement::statement::{DeskPacket, Held, Holder, PlacedPacket, Statement};
use serde_json::{Value, json};
use std::alloc::{AllocError, Global};

/// An item of a list in a statement.
trait Item {
    ghost use Rattle.serde_json.specs.Data.{Data};

    ghost data_of: { Self → Data };

    /// Its value.
    fn value(&self, alloc: Global) -> Result<Value, AllocError>
        ensures { IfOk result (λ v. view v ≡ data_of self.now) };
}

/// What a script's pools come to.
pub(crate) fn settled(alloc: Global, settled: &Settled) -> Result<Value, AllocError>
    ensures { IfOk result (λ v. view v ≡ settled_data settled.now) }
{
    match &settled.second {
        None => statement(alloc, &settled.first),
        Some(second) => both(alloc, &settled.first, second),
    }
}

/// The statements of two pools.
fn both(alloc: Global, first: &Statement, second: &Statement) -> Result<Value, AllocError>
    ensures { IfOk result (λ v. view v ≡ settled_with first.now (Some second.now)) }
{
    json!(in alloc; {
        "first": statement(alloc, first)?,
        "second": statement(alloc, second)?
    })
}

/// A statement.
pub(crate) fn statement(alloc: Global, statement: &Statement) -> Result<Value, AllocError>
    ensures { IfOk result (λ v. view v ≡ statement_data statement.now) }
{
    json!(in alloc; {
        "available": statement.available,
        "caches": list(alloc, statement.caches.as_slice())?,
        "common": numbers(alloc, statement.common.as_slice())?,
        "desks": list(alloc, statement.desks.as_slice())?,
        "held": list(alloc, statement.held.as_slice())?,
        "in_use": statement.in_use,
        "packets": list(alloc, statement.packets.as_slice())?,
        "population": statement.population
    })
}

/// A list of numbers.
pub fn numbers(alloc: Global, numbers: &[u32]) -> Result<Value, AllocError>
    ensures { IfOk result (λ v. view v ≡ counts_data numbers.now) }
{
    list(alloc, numbers)
}

/// The segments of a packet.
pub fn segs(alloc: Global, segs: &[Seg]) -> Result<Value, AllocError>
    ensures { IfOk result (λ v. view v ≡ segs_data segs.now) }
{
    list(alloc, segs)
}

/// A list of items of one kind.
fn list<T: Item>(alloc: Global, items: &[T]) -> Result<Value, AllocError>
    ensures { IfOk result (λ v. view v ≡ array (items_of (map T.data_of items.now))) }
{
    let mut values = Vec::with_capacity(alloc, items.len())?;
    for item in items {
        values.push(item.value(alloc)?)?;
    }
    Ok(Value::from(values))
}

/// A number.
impl Item for u32 {
    ghost use Rattle.statement_text.specs.StatementData.{count_data};

    ghost data_of = { count_data };

    fn value(&self, _alloc: Global) -> Result<Value, AllocError> {
        Ok(Value::from(*self))
    }
}

/// A cache, as a list of numbers.
impl Item for Seq<u32> {
    ghost use Rattle.statement_text.specs.StatementData.{counts_data};

    ghost data_of = { counts_data };

    fn value(&self, alloc: Global) -> Result<Value, AllocError> {
        numbers(alloc, self.as_slice())
    }
}

/// A worker's packet.
impl Item for PlacedPacket {
    ghost use Rattle.statement_text.specs.StatementData.{packet_data};

    ghost data_of = { packet_data };

    fn value(&self, alloc: Global) -> Result<Value, AllocError> {
        json!(in alloc; {
            "segs": segs(alloc, self.segs.as_slice())?,
            "slot": self.slot,
            "worker": self.worker
        })
    }
}

/// A packet on a desk.
impl Item for DeskPacket {
    ghost use Rattle.statement_text.specs.StatementData.{desk_data};

    ghost data_of = { desk_data };

    fn value(&self, alloc: Global) -> Result<Value, AllocError> {
        json!(in alloc; {"desk": self.desk, "segs": segs(alloc, self.segs.as_slice())?})
    }
}

/// A segment.
impl Item for Seg {
    ghost use Rattle.statement_text.specs.StatementData.{seg_data};

    ghost data_of = { seg_data };

    fn value(&self, alloc: Global) -> Result<Value, AllocError> {
        json!(in alloc; {
            "base": self.base,
            "buf": self.buf_len,
            "elem": self.elem,
            "len": self.data_len,
            "off": self.data_off
        })
    }
}

/// A held element.
impl Item for Held {
    ghost use Rattle.statement_text.specs.StatementData.{held_data};

    ghost data_of = { held_data };

    fn value(&self, alloc: Global) -> Result<Value, AllocError> {
        json!(in alloc; {
            "count": self.count,
            "elem": self.elem,
            "holders": list(alloc, self.holders.as_slice())?
        })
    }
}

/// A holder.
impl Item for Holder {
    ghost use Rattle.statement_text.specs.StatementData.{holder_data};

    ghost data_of = { holder_data };

    fn value(&self, alloc: Global) -> Result<Value, AllocError> {
        let text = match self {
            Holder::Worker(worker) => format!(in alloc; "{worker}")?,
            Holder::Desk(desk) => format!(in alloc; "d{desk}")?,
        };
        Ok(Value::from(text))
    }
}
