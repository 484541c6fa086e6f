//! A snapshot's parts as JSON values.

ghost use Rattle.std.specs.Prelude.{◌≡◌, IfOk, OnOk};
ghost use Rattle.serde_json.specs.Data.{put as with_member};
ghost use Rattle.serde_json.specs.View.{members_view, view};
ghost use Rattle.snapshot_json.specs.SnapshotData.{common_data, snapshot_data};
ghost use Rattle.snapshot_json.specs.Written.{shared_members};

use commons::limits::{Limits, PutRule};
use commons::packet::Seg;
use commons::seq::Seq;
use pool_statement::guest::Guest;
use serde_json::{Map, Value, json};
use snapshot::snapshot::{ShareData, Snapshot};
use statement_text::values::segs;
use std::alloc::{AllocError, Global};

/// The members of an object that is written.
type Members = Map<String, Value>;

/// A part of a snapshot, which can be written as a value.
trait Written {
    ghost use Rattle.serde_json.specs.Data.{Data};

    ghost data_of: { Self → Data };

    /// The value.
    fn value(&self, alloc: Global) -> Result<Value, AllocError>
        ensures { IfOk result (λ v. view v ≡ data_of self.now) };
}

/// Adds a member, which is this part.
fn put<T: Written>(
    alloc: Global,
    members: &mut Members,
    key: &str,
    part: &T,
) -> Result<(), AllocError>
    ensures { OnOk result (members_view members.new.entries
        ≡ with_member key.now (T.data_of part.now) (members_view members.old.entries)) }
{
    let value = part.value(alloc)?;
    serde_json::put(members, alloc, key, value)
}

/// A snapshot, with its stack as words.
pub(crate) fn snapshot(alloc: Global, snapshot: &Snapshot) -> Result<Value, AllocError>
    ensures { IfOk result (λ v. view v ≡ snapshot_data snapshot.now) }
{
    let mut members = beside_stack(alloc, snapshot)?;
    put(alloc, &mut members, "length", &snapshot.length)?;
    put(alloc, &mut members, "links", &snapshot.links)?;
    put(alloc, &mut members, "top", &snapshot.top)?;
    Ok(Value::Object(members))
}

/// A snapshot, with its stack as a list of elements.
pub(crate) fn with_common(
    alloc: Global,
    snapshot: &Snapshot,
    common: &Seq<u32>,
) -> Result<Value, AllocError>
    ensures { IfOk result (λ v. view v ≡ common_data snapshot.now common.now) }
{
    let mut members = beside_stack(alloc, snapshot)?;
    put(alloc, &mut members, "common", common)?;
    Ok(Value::Object(members))
}

/// The members that both forms have.
fn beside_stack(alloc: Global, snapshot: &Snapshot) -> Result<Members, AllocError>
    ensures { IfOk result (λ ms. members_view ms.entries ≡ shared_members snapshot.now) }
{
    let mut members = Map::new(alloc);
    put(alloc, &mut members, "counts", &snapshot.counts)?;
    put(alloc, &mut members, "desks", &snapshot.desks)?;
    put(alloc, &mut members, "foreign", &snapshot.foreign)?;
    put(alloc, &mut members, "guests", &snapshot.guests)?;
    put(alloc, &mut members, "limits", &snapshot.limits)?;
    put(alloc, &mut members, "shares", &snapshot.shares)?;
    Ok(members)
}

/// Limits.
impl Written for Limits {
    ghost use Rattle.snapshot_json.specs.SnapshotData.{limits_data};

    ghost data_of = { limits_data };

    fn value(&self, alloc: Global) -> Result<Value, AllocError> {
        let mut members = Map::new(alloc);
        put(alloc, &mut members, "buf", &self.buf)?;
        put(alloc, &mut members, "cache", &self.cache)?;
        put(alloc, &mut members, "desks", &self.desks)?;
        put(alloc, &mut members, "population", &self.population)?;
        put(alloc, &mut members, "putrule", &self.put_rule)?;
        put(alloc, &mut members, "refs", &self.ref_limit)?;
        put(alloc, &mut members, "start", &self.start_count)?;
        put(alloc, &mut members, "tries", &self.tries)?;
        put(alloc, &mut members, "workers", &self.workers)?;
        Ok(Value::Object(members))
    }
}

/// The rule of puts, as its number.
impl Written for PutRule {
    ghost use Rattle.snapshot_json.specs.SnapshotData.{rule_data};

    ghost data_of = { rule_data };

    fn value(&self, _alloc: Global) -> Result<Value, AllocError> {
        match self {
            PutRule::Keep => Ok(Value::from(0u64)),
            PutRule::Whole => Ok(Value::from(1u64)),
        }
    }
}

/// A number.
impl Written for u64 {
    ghost use Rattle.statement_text.specs.StatementData.{count_data};

    ghost data_of = { count_data };

    fn value(&self, _alloc: Global) -> Result<Value, AllocError> {
        Ok(Value::from(*self))
    }
}

/// A number below 2^32.
impl Written for u32 {
    ghost use Rattle.statement_text.specs.StatementData.{count_data};

    ghost data_of = { count_data };

    fn value(&self, _alloc: Global) -> Result<Value, AllocError> {
        Ok(Value::from(*self))
    }
}

/// A flag.
impl Written for bool {
    ghost use Rattle.serde_json.specs.Data.{boolean};

    ghost data_of = { boolean };

    fn value(&self, _alloc: Global) -> Result<Value, AllocError> {
        Ok(Value::from(*self))
    }
}

/// A list of parts of one kind.
impl<T: Written> Written for Seq<T> {
    ghost use Rattle.std.specs.Prelude.{map};
    ghost use Rattle.serde_json.specs.Data.{array};
    ghost use Rattle.serde_json.specs.View.{items_of};

    ghost data_of = { λ list. array (items_of (map T.data_of list)) };

    fn value(&self, alloc: Global) -> Result<Value, AllocError> {
        let mut values = Vec::with_capacity(alloc, self.len())?;
        for part in self.as_slice() {
            values.push(part.value(alloc)?)?;
        }
        Ok(Value::from(values))
    }
}

/// A place: the segments of a packet, or null.
impl Written for Option<Seq<Seg>> {
    ghost use Rattle.snapshot_json.specs.SnapshotData.{place_data};

    ghost data_of = { place_data };

    fn value(&self, alloc: Global) -> Result<Value, AllocError> {
        match self {
            None => Ok(Value::Null),
            Some(packet) => segs(alloc, packet.as_slice()),
        }
    }
}

/// A share.
impl Written for ShareData {
    ghost use Rattle.snapshot_json.specs.SnapshotData.{share_data};

    ghost data_of = { share_data };

    fn value(&self, alloc: Global) -> Result<Value, AllocError> {
        let mut members = Map::new(alloc);
        put(alloc, &mut members, "cache", &self.cache)?;
        put(alloc, &mut members, "slots", &self.slots)?;
        put(alloc, &mut members, "worker", &self.worker)?;
        Ok(Value::Object(members))
    }
}

/// A guest.
impl Written for Guest {
    ghost use Rattle.snapshot_json.specs.SnapshotData.{guest_data};

    ghost data_of = { guest_data };

    fn value(&self, alloc: Global) -> Result<Value, AllocError> {
        json!(in alloc; {"elem": self.elem, "worker": self.worker})
    }
}
