//! Audits: the functions that walk the tables. A row that fails is named.

use audit_text::json::{faults_json, two_faults_json};
use audit_text::lines::fault_lines;
use audit_text::stack_of;
use commons::packet::Seg;
use commons::refusal::Refusal;
use commons::seq::Seq;
use pool_statement::statement::{DeskPacket, Held, Holder, PlacedPacket, Statement};
use snapshot::all_faults::{all_faults, all_faults_on};
use snapshot::audit::audit;
use snapshot::fault::Fault;
use snapshot::snapshot::Snapshot;
use std::alloc::{AllocError, Global};
use std::fmt::Debug;
use std::process::Abort;
use std::test::Fail;

mod all_faults_rows;
mod building;
mod calling;
mod fault_texts;
mod faults;
mod guests;
mod places;
mod shown;
mod vectors;
mod words;

use building::built;
use calling::in_use;
use shown::{Places, Shown, Word};
use words::{Answer, Pool};

/// A name, a snapshot, and what its audit answers.
type Row = (&'static str, Shown, Result<Places, Fault>);

/// Asserts that both are equal, and else says of what, with both.
fn same<T: PartialEq + Debug>(rt: &impl Abort, given: &T, wanted: &T, what: &str) {
    assert!(rt; *given == *wanted, "{what}: {given:?}, not {wanted:?}");
}

/// What the audit answers for a row's snapshot, where one word may be another; `BadShape` where no
/// pool has its limits.
fn audited(alloc: Global, shown: &Shown, other: Option<(Word, u32)>) -> Result<Statement, Fault> {
    if shown.limits.check().is_err() {
        return Err(Fault::BadShape);
    }
    match built(alloc, shown, other) {
        Ok(snapshot) => audit(alloc, &snapshot),
        Err(_) => Err(Fault::OutOfMemory),
    }
}

/// What a statement lists, which a table has as plain data.
trait Listed {
    /// The plain data.
    type Plain;

    /// Whether it is this.
    fn assert_is(&self, rt: &impl Abort, wanted: &Self::Plain, name: &str);
}

impl Listed for Seq<u32> {
    type Plain = &'static [u32];

    fn assert_is(&self, rt: &impl Abort, wanted: &Self::Plain, name: &str) {
        same(rt, &self.as_slice(), wanted, name);
    }
}

impl Listed for PlacedPacket {
    type Plain = (u32, u32, &'static [Seg]);

    fn assert_is(&self, rt: &impl Abort, wanted: &Self::Plain, name: &str) {
        same(
            rt,
            &(self.worker, self.slot, self.segs.as_slice()),
            wanted,
            name,
        );
    }
}

impl Listed for DeskPacket {
    type Plain = (u32, &'static [Seg]);

    fn assert_is(&self, rt: &impl Abort, wanted: &Self::Plain, name: &str) {
        same(rt, &(self.desk, self.segs.as_slice()), wanted, name);
    }
}

impl Listed for Held {
    type Plain = (u32, u32, &'static [Holder]);

    fn assert_is(&self, rt: &impl Abort, wanted: &Self::Plain, name: &str) {
        same(
            rt,
            &(self.elem, self.count, self.holders.as_slice()),
            wanted,
            name,
        );
    }
}

/// Whether a statement lists these, one for one.
fn assert_lists<T: Listed>(rt: &impl Abort, given: &Seq<T>, wanted: &[T::Plain], name: &str) {
    same(rt, &given.len(), &wanted.len(), name);
    for (item, wanted) in given.as_slice().iter().zip(wanted) {
        item.assert_is(rt, wanted, name);
    }
}

/// Whether a statement places each element so.
fn assert_places(rt: &impl Abort, statement: &Statement, places: &Places, name: &str) {
    let given = (statement.population, statement.available, statement.in_use);
    same(
        rt,
        &given,
        &(places.population, places.available, places.in_use),
        name,
    );
    same(rt, &statement.common.as_slice(), &places.common, name);
    assert_lists(rt, &statement.caches, places.caches, name);
    assert_lists(rt, &statement.packets, places.packets, name);
    assert_lists(rt, &statement.desks, places.desks, name);
    assert_lists(rt, &statement.held, places.held, name);
}

/// Whether an audit's answer is the expected one.
fn assert_answer(
    rt: &impl Abort,
    answer: Result<Statement, Fault>,
    wanted: &Result<Places, Fault>,
    name: &str,
) {
    match (answer, wanted) {
        (Ok(statement), Ok(places)) => assert_places(rt, &statement, places, name),
        (answer, wanted) => same(rt, &answer.err(), &(*wanted).err(), name),
    }
}

fn audit_rows<R: Abort + AllocGlobal>(rt: &R, rows: &[Row]) {
    for (name, shown, wanted) in rows {
        let answer = audited(rt.alloc(), shown, None);
        assert_answer(rt, answer, wanted, name);
    }
}

#[test]
fn each_snapshot_is_lawful_or_has_its_first_fault(rt: HostRuntime) {
    audit_rows(&rt, vectors::ROWS);
    audit_rows(&rt, guests::rows());
    audit_rows(&rt, places::ROWS);
    audit_rows(&rt, faults::LAWFUL);
    audit_rows(&rt, faults::SHAPES);
    audit_rows(&rt, faults::WALKS);
    audit_rows(&rt, faults::PACKETS);
    audit_rows(&rt, faults::HEADERS);
    audit_rows(&rt, faults::PLACES);
    audit_rows(&rt, faults::COUNTS);
    audit_rows(&rt, faults::ORDER);
}

/// What a word of a pool is, for a row that fails.
fn named(alloc: Global, pool: &Pool, word: Word, value: u32) -> Result<String, Fail> {
    Ok(format!(in alloc; "{}: {word:?} is {value}", pool.name)?)
}

/// Whether the audit answers so where a word has this value.
fn audit_word<R: Abort + AllocGlobal>(
    rt: &R,
    pool: &Pool,
    word: Word,
    value: u32,
    answer: Answer,
) -> Result<(), Fail> {
    let name = named(rt.alloc(), pool, word, value)?;
    let wanted = words::wanted(pool, word, value, answer);
    let answer = audited(rt.alloc(), &pool.shown, Some((word, value)));
    assert_answer(rt, answer, &wanted, name.as_str());
    Ok(())
}

fn audit_words<R: Abort + AllocGlobal>(rt: &R, pool: &Pool) -> Result<(), Fail> {
    for (word, answers) in pool.words {
        same(
            rt,
            &(*word, answers.len()),
            &(*word, pool.values.len()),
            pool.name,
        );
        for (value, answer) in pool.values.iter().zip(*answers) {
            audit_word(rt, pool, *word, *value, *answer)?;
        }
    }
    Ok(())
}

#[test]
fn each_other_word_has_its_answer(rt: HostRuntime) -> Result<(), Fail> {
    for pool in words::POOLS {
        audit_words(&rt, pool)?;
    }
    Ok(())
}

/// How often each kind of answer came.
#[derive(Clone, Copy, Default, PartialEq, Eq, Debug)]
struct Tally {
    lawful: u32,
    bad_top: u32,
    endless: u32,
    bad_length: u32,
    bad_count: u32,
    other: u32,
}

impl Tally {
    /// One answer more.
    fn add(&mut self, answer: &Result<Statement, Fault>) {
        let kind = match answer {
            Ok(_) => &mut self.lawful,
            Err(Fault::BadTop(_)) => &mut self.bad_top,
            Err(Fault::Loop) => &mut self.endless,
            Err(Fault::BadLength { .. }) => &mut self.bad_length,
            Err(Fault::BadCount { .. }) => &mut self.bad_count,
            Err(_) => &mut self.other,
        };
        *kind = kind.saturating_add(1);
    }
}

/// What is answered of the small snapshot where one word is each other value of 0 to 5 in turn.
#[test]
fn of_forty_damaged_words_so_many_have_each_answer(rt: HostRuntime) {
    let mut tally = Tally::default();
    for (word, value) in vectors::SMALL_WORDS {
        for other in 0..6 {
            if other != *value {
                tally.add(&audited(rt.alloc(), &vectors::SMALL, Some((*word, other))));
            }
        }
    }
    let wanted = Tally {
        lawful: 5,
        bad_top: 6,
        endless: 5,
        bad_length: 9,
        bad_count: 15,
        other: 0,
    };
    same(&rt, &tally, &wanted, "the small snapshot");
}

/// How many elements of a row's snapshot are held; `BadShape` where no pool has its limits.
fn held_in(alloc: Global, shown: &Shown) -> Result<u64, Fault> {
    if shown.limits.check().is_err() {
        return Err(Fault::BadShape);
    }
    match built(alloc, shown, None) {
        Ok(snapshot) => in_use(alloc, &snapshot),
        Err(_) => Err(Fault::OutOfMemory),
    }
}

#[test]
fn a_caller_learns_how_many_elements_are_held(rt: HostRuntime) {
    same(
        &rt,
        &held_in(rt.alloc(), &faults::LARGE),
        &Ok(7),
        "the large snapshot",
    );
}

/// All faults of a row's snapshot, or of its list; `None` where memory was refused.
fn all_of(
    alloc: Global,
    shown: &Shown,
    stack: Option<&[u32]>,
) -> Result<Option<Vec<Fault>>, Fault> {
    if shown.limits.check().is_err() {
        return Err(Fault::BadShape);
    }
    match (built(alloc, shown, None), stack) {
        (Err(_), _) => Ok(None),
        (Ok(snapshot), None) => Ok(all_faults(alloc, &snapshot).ok()),
        (Ok(snapshot), Some(stack)) => Ok(all_faults_on(alloc, &snapshot, stack).ok()),
    }
}

/// Whether exactly these are told of a row's snapshot, in order. It may be refused where memory may.
fn told_rows<R: Abort + AllocGlobal>(rt: &R, refused: bool) {
    for (name, shown, stack, wanted) in all_faults_rows::ROWS {
        match all_of(rt.alloc(), shown, *stack) {
            Ok(None) => assert!(rt; refused, "{name}: out of memory"),
            Ok(Some(told)) => same(rt, &told.as_slice(), wanted, name),
            Err(fault) => assert!(rt; false, "{name}: {fault:?}"),
        }
    }
}

#[test]
fn all_faults_of_a_snapshot_are_told_in_order(rt: HostRuntime) {
    told_rows(&rt, false);
}

/// The stack of a row's snapshot: its list, or the walk.
fn stack(
    alloc: Global,
    snapshot: &Snapshot,
    list: Option<&'static [u32]>,
) -> Result<Vec<u32>, Refusal> {
    match list {
        None => stack_of(alloc, snapshot),
        Some(list) => {
            let mut elems = Vec::new(alloc);
            match elems.extend_from_slice(list) {
                Ok(()) => Ok(elems),
                Err(_) => Err(Refusal::OutOfMemory),
            }
        }
    }
}

/// A snapshot, its stack, and all its faults.
type Faulty = (Snapshot, Vec<u32>, Vec<Fault>);

/// The lines of faults, their JSON, and that of two pools.
type Texts = (Vec<u8>, Vec<u8>, Vec<u8>);

/// A row's snapshot with its faults.
fn faulty(alloc: Global, shown: &Shown, list: Option<&'static [u32]>) -> Result<Faulty, Refusal> {
    let Ok(snapshot) = built(alloc, shown, None) else {
        return Err(Refusal::OutOfMemory);
    };
    let elems = stack(alloc, &snapshot, list)?;
    match all_of(alloc, shown, list) {
        Ok(Some(faults)) => Ok((snapshot, elems, faults)),
        _ => Err(Refusal::OutOfMemory),
    }
}

/// The texts of a snapshot's faults, and of two pools of which this is the second, and the first
/// has none.
fn told(
    alloc: Global,
    snapshot: &Snapshot,
    stack: &[u32],
    faults: &[Fault],
    front: &str,
) -> Result<Texts, Refusal> {
    let lines = fault_lines(alloc, snapshot, stack, faults, front.as_bytes())?;
    let json = faults_json(alloc, snapshot, stack, faults)?;
    let both = two_faults_json(alloc, snapshot, stack, &[], snapshot, stack, faults)?;
    Ok((lines, json, both))
}

/// The texts of a row.
fn texts_of(alloc: Global, row: &fault_texts::Row) -> Result<Texts, Refusal> {
    let (_, shown, list, front, _, _) = row;
    let (snapshot, elems, faults) = faulty(alloc, shown, *list)?;
    told(alloc, &snapshot, elems.as_slice(), faults.as_slice(), front)
}

/// The JSON of two pools of which the second has the faults of this JSON.
fn json_of_two(alloc: Global, json: &str) -> Result<String, AllocError> {
    format!(in alloc; "{{\"first\":[],\"second\":{}}}\n", json.trim_end())
}

/// Whether these are the texts of a row.
fn assert_texts(rt: &impl Abort, texts: &Texts, both: &str, row: &fault_texts::Row) {
    let (name, _, _, _, lines, json) = row;
    same(rt, &texts.0.as_slice(), &lines.as_bytes(), name);
    same(rt, &texts.1.as_slice(), &json.as_bytes(), name);
    same(rt, &texts.2.as_slice(), &both.as_bytes(), name);
}

/// Whether a row's texts are these. They may be refused where memory may.
fn text_rows<R: Abort + AllocGlobal>(rt: &R, refused: bool) {
    for row in fault_texts::ROWS {
        let (name, _, _, _, _, json) = row;
        match (texts_of(rt.alloc(), row), json_of_two(rt.alloc(), json)) {
            (Ok(texts), Ok(both)) => assert_texts(rt, &texts, both.as_str(), row),
            _ => assert!(rt; refused, "{name}: out of memory"),
        }
    }
}

#[test]
fn all_faults_have_their_lines_and_their_json(rt: HostRuntime) {
    text_rows(&rt, false);
}

#[test]
fn refused_memory_changes_no_line_of_many(rt: HostRuntime) {
    text_rows(&rt, true);
}

/// Whichever request for memory is refused, the answer is the same or `OutOfMemory`.
fn rows_for_memory<R: Abort + AllocGlobal>(rt: &R, rows: &[Row]) {
    for (name, shown, wanted) in rows {
        match audited(rt.alloc(), shown, None) {
            Err(Fault::OutOfMemory) => {}
            answer => assert_answer(rt, answer, wanted, name),
        }
    }
}

#[test]
fn refused_memory_changes_no_answer(rt: HostRuntime) {
    rows_for_memory(&rt, faults::FOR_MEMORY);
    rows_for_memory(&rt, guests::rows());
    told_rows(&rt, true);
}
