//! A snapshot's text read as a dump writes it: the members of each object in one order, and numbers
//! in decimal. It is read without a tree of serde's values, which takes three times the memory. What
//! is written otherwise isn't refused here: nothing is said of it.

ghost use Rattle.std.specs.Prelude.{[], ◌≡◌, ◌<◌, ◌^◌, IfSome, IsSomeAnd, Some, decimal, true};
ghost use Rattle.commons.specs.declared.packet.Seg.{Seg};
ghost use Rattle.json.specs.Json.{array, document, member as a_member, no_members, object, skip_value};
ghost use Rattle.json.specs.Strict.{HasUniqueKeys};
ghost use Rattle.json.specs.Value.{items_view, members_view, value_view};
ghost use Rattle.pool_statement.specs.declared.guest.Guest.{Guest};
ghost use Rattle.serde_json.specs.Read.{max_depth, read};
ghost use Rattle.snapshot.specs.declared.snapshot.ShareData.{ShareData};
ghost use Rattle.snapshot_json.specs.Dumped.{IsLow, IsOf, Passes, PassesTwo};
ghost use Rattle.snapshot_json.specs.SnapshotData.{common_data};

use crate::reading::Listed;
use commons::limits::{Limits, PutRule};
use commons::packet::Seg;
use commons::seq::Seq;
use itoa::Buffer;
use json::{Reader, Scratch, Value};
use pool_statement::guest::Guest;
use snapshot::snapshot::{ShareData, Snapshot};
use std::alloc::Global;

/// The members of an object that are still to be read.
type Members<'v, 'a> = &'v [(&'a str, Value<'a>)];

/// A part of a snapshot that can be read of a value which a dump wrote.
trait Dumped: Drop {
    ghost use Rattle.serde_json.specs.Data.{Data};

    ghost data_of: { Self → Data };

    /// The part that a value is, if it is one.
    fn read(alloc: Global, value: &Value<'_>) -> Option<Self>
        ensures { IfSome result (λ part. IsOf (value_view value.now) (data_of part)) };
}

/// The members of a value, if it is an object.
fn members<'v, 'a>(value: &'v Value<'a>) -> Option<Members<'v, 'a>>
    ensures { IfSome result (λ ms. value_view value.now ≡ object (members_view ms.now)) }
{
    match value {
        Value::Object(members) => Some(members.as_slice()),
        _ => None,
    }
}

/// The part that the first member is, if it has this key, and the members behind it.
fn at<'v, 'a, T: Dumped>(
    alloc: Global,
    members: Members<'v, 'a>,
    key: &str,
) -> Option<(T, Members<'v, 'a>)>
    ensures { IfSome result (λ r. Passes key.now (T.data_of r.0)
        (members_view members.now) (members_view r.1.now)) }
{
    match members.split_first() {
        Some((first, rest)) if first.0 == key => {
            let part = T::read(alloc, &first.1)?;
            Some((part, rest))
        }
        _ => None,
    }
}

/// The parts that the first two members are, if they have these keys, and the members behind them.
fn two<'v, 'a, A: Dumped, B: Dumped>(
    alloc: Global,
    members: Members<'v, 'a>,
    key: &str,
    next_key: &str,
) -> Option<((A, B), Members<'v, 'a>)>
    ensures { IfSome result (λ r.
        PassesTwo key.now (A.data_of r.0.0) next_key.now (B.data_of r.0.1)
        (members_view members.now) (members_view r.1.now)) }
{
    let first = at(alloc, members, key)?;
    let second = at(alloc, first.1, next_key)?;
    Some(((first.0, second.0), second.1))
}

/// Says that no member is left.
fn ended(members: Members<'_, '_>) -> Option<()>
    ensures { IfSome result (λ _. members_view members.now ≡ no_members) }
{
    if members.is_empty() { Some(()) } else { None }
}

/// The items of a value, if it is a list.
fn items<'v, 'a>(value: &'v Value<'a>) -> Option<&'v [Value<'a>]>
    ensures { IfSome result (λ vs. value_view value.now ≡ array (items_view vs.now)) }
{
    match value {
        Value::Array(items) => Some(items.as_slice()),
        _ => None,
    }
}

/// Whether these are the digits of a number.
fn is_written(number: u64, digits: &str) -> bool
    ensures { result ≡ true → (number < 2 ^ 64) × (digits.now ≡ decimal number) }
{
    Buffer::new().format(number) == digits
}

/// A number.
impl Dumped for u64 {
    ghost use Rattle.statement_text.specs.StatementData.{count_data};

    ghost data_of = { count_data };

    fn read(_alloc: Global, value: &Value<'_>) -> Option<u64> {
        let digits = value.as_number()?;
        let number = value.as_u64()?;
        if is_written(number, digits) {
            Some(number)
        } else {
            None
        }
    }
}

/// A number below 2^32.
impl Dumped for u32 {
    ghost use Rattle.statement_text.specs.StatementData.{count_data};

    ghost data_of = { count_data };

    fn read(alloc: Global, value: &Value<'_>) -> Option<u32> {
        let number = u64::read(alloc, value)?;
        if number < 1 << 32 {
            Some(number as u32)
        } else {
            None
        }
    }
}

/// A number below 2^16.
impl Dumped for u16 {
    ghost use Rattle.statement_text.specs.StatementData.{count_data};

    ghost data_of = { count_data };

    fn read(alloc: Global, value: &Value<'_>) -> Option<u16> {
        let number = u64::read(alloc, value)?;
        if number < 1 << 16 {
            Some(number as u16)
        } else {
            None
        }
    }
}

/// A base: a number below 2^32, or null.
impl Dumped for Option<u32> {
    ghost use Rattle.statement_text.specs.StatementData.{base_data};

    ghost data_of = { base_data };

    fn read(alloc: Global, value: &Value<'_>) -> Option<Option<u32>> {
        if value.is_null() {
            return Some(None);
        }
        let number = u32::read(alloc, value)?;
        Some(Some(number))
    }
}

/// A flag: true or false.
impl Dumped for bool {
    ghost use Rattle.serde_json.specs.Data.{boolean};

    ghost data_of = { boolean };

    fn read(_alloc: Global, value: &Value<'_>) -> Option<bool> {
        value.as_bool()
    }
}

/// The rule of puts, by its number.
impl Dumped for PutRule {
    ghost use Rattle.snapshot_json.specs.SnapshotData.{rule_data};

    ghost data_of = { rule_data };

    fn read(alloc: Global, value: &Value<'_>) -> Option<PutRule> {
        match u64::read(alloc, value)? {
            0 => Some(PutRule::Keep),
            1 => Some(PutRule::Whole),
            _ => None,
        }
    }
}

/// A list of parts of one kind.
impl<T: Dumped> Dumped for Seq<T> {
    ghost use Rattle.std.specs.Prelude.{map};
    ghost use Rattle.serde_json.specs.Data.{array};
    ghost use Rattle.serde_json.specs.View.{items_of};

    ghost data_of = { λ list. array (items_of (map T.data_of list)) };

    fn read(alloc: Global, value: &Value<'_>) -> Option<Seq<T>> {
        let items = items(value)?;
        let mut found = Vec::with_capacity(alloc, items.len()).ok()?;
        for item in items {
            found.push(T::read(alloc, item)?).ok()?;
        }
        Some(Seq::new(found))
    }
}

/// A segment.
impl Dumped for Seg {
    ghost use Rattle.statement_text.specs.StatementData.{seg_data};

    ghost data_of = { seg_data };

    fn read(alloc: Global, value: &Value<'_>) -> Option<Seg> {
        let all = members(value)?;
        let ((elem, base), rest) = two(alloc, all, "elem", "base")?;
        let ((data_off, data_len), rest) = two(alloc, rest, "off", "len")?;
        let (buf_len, rest) = at(alloc, rest, "buf")?;
        ended(rest)?;
        Some(Seg {
            elem,
            base,
            data_off,
            data_len,
            buf_len,
        })
    }
}

/// A place: the segments of a packet, or null.
impl Dumped for Option<Seq<Seg>> {
    ghost use Rattle.snapshot_json.specs.SnapshotData.{place_data};

    ghost data_of = { place_data };

    fn read(alloc: Global, value: &Value<'_>) -> Option<Option<Seq<Seg>>> {
        if value.is_null() {
            return Some(None);
        }
        let packet = Seq::read(alloc, value)?;
        Some(Some(packet))
    }
}

/// A share.
impl Dumped for ShareData {
    ghost use Rattle.snapshot_json.specs.SnapshotData.{share_data};

    ghost data_of = { share_data };

    fn read(alloc: Global, value: &Value<'_>) -> Option<ShareData> {
        let all = members(value)?;
        let ((worker, cache), rest) = two(alloc, all, "worker", "cache")?;
        let (slots, rest) = at(alloc, rest, "slots")?;
        ended(rest)?;
        Some(ShareData {
            worker,
            cache,
            slots,
        })
    }
}

/// A guest.
impl Dumped for Guest {
    ghost use Rattle.snapshot_json.specs.SnapshotData.{guest_data};

    ghost data_of = { guest_data };

    fn read(alloc: Global, value: &Value<'_>) -> Option<Guest> {
        let all = members(value)?;
        let ((worker, elem), rest) = two(alloc, all, "worker", "elem")?;
        ended(rest)?;
        Some(Guest { worker, elem })
    }
}

/// Limits.
impl Dumped for Limits {
    ghost use Rattle.snapshot_json.specs.SnapshotData.{limits_data};

    ghost data_of = { limits_data };

    fn read(alloc: Global, value: &Value<'_>) -> Option<Limits> {
        let all = members(value)?;
        let ((population, cache), rest) = two(alloc, all, "population", "cache")?;
        let ((workers, desks), rest) = two(alloc, rest, "workers", "desks")?;
        let ((buf, ref_limit), rest) = two(alloc, rest, "buf", "refs")?;
        let ((tries, start_count), rest) = two(alloc, rest, "tries", "start")?;
        let (put_rule, rest) = at(alloc, rest, "putrule")?;
        ended(rest)?;
        Some(Limits {
            population,
            cache,
            workers,
            desks,
            buf,
            ref_limit,
            tries,
            start_count,
            put_rule,
        })
    }
}

/// The whole of a snapshot, whose stack is a list.
fn listed(alloc: Global, value: &Value<'_>) -> Option<Listed>
    ensures { IfSome result (λ l. IsOf (value_view value.now) (common_data l.shown l.common)) }
{
    let all = members(value)?;
    let ((limits, common), rest) = two(alloc, all, "limits", "common")?;
    let ((counts, desks), rest) = two(alloc, rest, "counts", "desks")?;
    let ((shares, guests), rest) = two(alloc, rest, "shares", "guests")?;
    let (foreign, rest) = at(alloc, rest, "foreign")?;
    ended(rest)?;
    let shown = Snapshot {
        limits,
        top: 0,
        length: 0,
        links: Seq::new(Vec::new(alloc)),
        counts,
        desks,
        shares,
        guests,
        foreign,
    };
    Some(Listed { shown, common })
}

/// How deep a value of JSON may nest.
const DEPTH: usize = 127;

/// Whether a text is one value of JSON that doesn't nest too deep, as far as there is memory.
fn is_low(text: &str, scratch: &mut Scratch) -> bool
    ensures { result ≡ true → IsLow text.now }
{
    match Reader::new(text, scratch) {
        Ok(reader) => ends_low(reader),
        Err(_) => false,
    }
}

/// Whether a reader has one value left, which doesn't nest too deep.
fn ends_low(reader: Reader<'_>) -> bool
    ensures { result ≡ true → skip_value max_depth reader.entry ≡ Some [] }
{
    let mut reader = reader;
    match reader.skip_value(DEPTH) {
        Ok(()) => match reader.next() {
            Some(_) => false,
            None => true,
        },
        Err(_) => false,
    }
}

/// The snapshot whose text this is, as a dump writes it, without its stack, and the list of elements
/// that stands for it. Nothing where it is written otherwise, or where memory was refused.
pub(crate) fn read_listed(alloc: Global, text: &str) -> Option<Listed>
    ensures data { IfSome result (λ l. read text.now ≡ Some (common_data l.shown l.common)) }
    ensures once { IfSome result (λ _. IsSomeAnd (document text.now) HasUniqueKeys) }
{
    let mut scratch = Scratch::new(alloc);
    if !is_low(text, &mut scratch) {
        return None;
    }
    match Value::parse_strict(alloc, text, &mut scratch) {
        Ok(value) => {
            let found = listed(alloc, &value)?;
            Some(found)
        }
        Err(_) => None,
    }
}
