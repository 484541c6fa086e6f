//! The functions that walk the tables. A row that fails is named.

use audit_text::fault_line;
use commons::refusal::Refusal;
use snapshot::audit::audit;
use snapshot::fault::Fault;
use snapshot::snapshot::Snapshot;
use snapshot_json::fault::SnapshotFault;
use snapshot_json::text::{Repeats, Text};
use snapshot_json::{read_snapshot, read_text, snapshot_json};
use snapshot_rows::{FAULTS, LIMITS, Members, written};
use std::alloc::{AllocError, Global};
use std::process::Abort;
use std::test::Fail;

mod calling;
mod damaged;
mod drawn;
mod pictures;

use calling::with_length;
use damaged::{DUMPED, LIST, OF_DUMPED, OF_LIST, OF_WORDS, WHOLE, WORDS};
use drawn::{Source, drawn};
use pictures::{PICTURES, picture_of};

/// A name, what is replaced in a text, by what, and what is printed of the text. Where `^` stands
/// in the replacement, `, at byte` and its place are printed behind that.
type Row = (&'static str, &'static str, &'static str, &'static str);

/// A damaged text, and what is to be printed of it.
#[derive(Drop)]
struct Made {
    text: Vec<u8>,
    told: String,
}

/// Where `old` stands first in a text.
fn place_of(text: &[u8], old: &[u8]) -> Option<usize> {
    for at in 0..text.len() {
        if text[at..].starts_with(old) {
            return Some(at);
        }
    }
    None
}

/// A row's text.
fn made_of(alloc: Global, text: &str, row: &Row) -> Result<Option<Made>, AllocError> {
    let (_, old, new, told) = *row;
    let bytes = text.as_bytes();
    let Some(at) = place_of(bytes, old.as_bytes()) else {
        return Ok(None);
    };
    let mut made = Vec::new(alloc);
    for byte in bytes.iter().take(at) {
        made.push(*byte)?;
    }
    let mut line = String::from_str(alloc, told)?;
    for byte in new.bytes() {
        if byte == b'^' {
            let place = made.len();
            line.push_str(format!(in alloc; ", at byte {place}")?.as_str())?;
        } else {
            made.push(byte)?;
        }
    }
    for byte in bytes.iter().skip(at).skip(old.len()) {
        made.push(*byte)?;
    }
    Ok(Some(Made {
        text: made,
        told: line,
    }))
}

/// What is printed of a text: nothing of a snapshot's.
fn told(alloc: Global, text: &[u8]) -> Result<String, AllocError> {
    match read_snapshot(alloc, text) {
        Ok(_) => String::from_str(alloc, ""),
        Err(fault) => format!(in alloc; "{fault}"),
    }
}

/// Asserts what is printed of each row's text, or that memory was refused.
fn assert_told(rt: &impl Abort, alloc: Global, text: &str, rows: &[Row]) {
    for row in rows {
        let (name, _, _, _) = *row;
        match made_of(alloc, text, row) {
            Ok(Some(made)) => {
                if let Ok(line) = told(alloc, made.text.as_slice()) {
                    let (line, wanted) = (line.as_str(), made.told.as_str());
                    assert!(rt;
                        line == wanted || line == "out of memory",
                        "{name}: {line}, not {wanted}"
                    );
                }
            }
            Ok(None) => assert!(rt; false, "{name}: nothing to replace"),
            Err(_) => {}
        }
    }
}

/// Each damaged text is told by its line.
#[test]
fn each_damaged_text_has_its_line(rt: HostRuntime) {
    assert_told(&rt, rt.alloc(), WORDS, OF_WORDS);
    assert_told(&rt, rt.alloc(), LIST, OF_LIST);
    assert_told(&rt, rt.alloc(), DUMPED, OF_DUMPED);
}

/// And so is each whole text.
#[test]
fn each_whole_text_has_its_line(rt: HostRuntime) {
    for (text, wanted) in WHOLE {
        if let Ok(line) = told(rt.alloc(), *text) {
            let line = line.as_str();
            assert!(&rt;
                line == *wanted || line == "out of memory",
                "{line}, not {wanted}"
            );
        }
    }
}

/// Asserts that a text is read with ample memory, and gives what it shows and its JSON.
fn shown(
    rt: &impl Abort,
    alloc: Global,
    text: &[u8],
    name: &str,
) -> Result<(String, Vec<u8>), AllocError> {
    match read_snapshot(alloc, text) {
        Ok(snapshot) => {
            let shown = format!(in alloc; "{snapshot:?}")?;
            match snapshot_json(alloc, &snapshot) {
                Ok(json) => Ok((shown, json)),
                Err(_) => Err(AllocError),
            }
        }
        Err(fault) => {
            let line = format!(in alloc; "{fault}")?;
            let line = line.as_str();
            assert!(rt; line == "out of memory", "{name}: {line}");
            Err(AllocError)
        }
    }
}

/// What the texts of both forms show.
const BOTH: &str =
    "Snapshot { limits: Limits { population: 5, cache: 2, workers: 2, desks: 1, buf: 2048, \
    ref_limit: 7, tries: 100, start_count: 0, put_rule: Keep }, top: 3, length: 2, \
    links: Seq { items: [0, \
    9, 4, 0, 0] }, counts: Seq { items: [3, 1, 1, 1, 1] }, desks: Seq { items: [None] }, \
    shares: Seq { items: [ShareData { worker: 1, cache: Seq { items: [] }, \
    slots: Seq { items: [Some(Seq { items: [Seg { elem: 0, \
    base: None, data_off: 128, data_len: 100, buf_len: 2048 }] }), None] } }, \
    ShareData { worker: 2, \
    cache: Seq { items: [4] }, slots: Seq { items: [None, Some(Seq { items: [Seg { elem: 1, \
    base: Some(0), data_off: 128, data_len: 100, buf_len: 2048 }] })] } }] }, \
    guests: Seq { items: [Guest { worker: 1, \
    elem: 0 }] }, foreign: false }";

/// The same with its links made from the list: 0 for each element that isn't in it.
const WITH_LINKS: &str = "links: Seq { items: [0, 0, 4, 0, 0] }";

/// The JSON of the text with words.
const WRITTEN: &str =
    "{\"counts\":[3,1,1,1,1],\"desks\":[null],\"foreign\":false,\"guests\":[{\"elem\":0,\
    \"worker\":1}\
    ],\"length\":2,\"limits\":{\"buf\":2048,\"cache\":2,\"desks\":1,\"population\":5,\"putrule\":0,\
    \"refs\":7,\"start\":0,\"tries\":100,\"workers\":2},\"links\":[0,9,4,0,0],\
    \"shares\":[{\"cache\":[]\
    ,\"slots\":[[{\"base\":null,\"buf\":2048,\"elem\":0,\"len\":100,\"off\":128}],null],\
    \"worker\":1}\
    ,{\"cache\":[4],\"slots\":[null,[{\"base\":0,\"buf\":2048,\"elem\":1,\"len\":100,\"off\":128}\
    ]],\"worker\":2}],\"top\":3}\n";

/// Both forms are read, and each is written with its words.
#[test]
fn both_forms_are_read(rt: HostRuntime) {
    if let Ok((words, json)) = shown(&rt, rt.alloc(), WORDS.as_bytes(), "words") {
        let words = words.as_str();
        assert!(&rt; words == BOTH, "words: {words}");
        assert!(&rt; json.as_slice() == WRITTEN.as_bytes(), "the JSON of words");
    }
    if let Ok((list, _)) = shown(&rt, rt.alloc(), LIST.as_bytes(), "a list") {
        let list = list.as_str();
        let links = place_of(list.as_bytes(), WITH_LINKS.as_bytes());
        assert!(&rt;
            links.is_some() && list.len() == BOTH.len(),
            "a list: {list}"
        );
    }
}

/// A text in the order of a dump is read as one in another order is.
#[test]
fn a_dump_is_read_as_its_members_in_another_order(rt: HostRuntime) {
    if let Ok((list, _)) = shown(&rt, rt.alloc(), LIST.as_bytes(), "a list") {
        if let Ok((dumped, _)) = shown(&rt, rt.alloc(), DUMPED.as_bytes(), "a dump") {
            let (list, dumped) = (list.as_str(), dumped.as_str());
            assert!(&rt; list == dumped, "{dumped}, not {list}");
        }
    }
}

/// A list with elements twice, in place of that of a text: what is replaced.
const REPEATS: &[(&str, Row)] = &[
    (LIST, ("a list", "[2 , 3]", "[3,1,4,3,1]", "")),
    (DUMPED, ("a dump", "[2,3]", "[3,1,4,3,1]", "")),
];

/// What such a text shows: the list, the least element that stands twice, and the words of no element.
const REPEATED: &str = "Seq { items: [3, 1, 4, 3, 1] } Double { elem: 1, first: 1, second: 4 } 0 0 \
    Seq { items: [0, 0, 0, 0, 0] }";

/// A text whose list has elements twice is read with that list.
#[test]
fn the_list_of_a_text_with_repeats_is_read(rt: HostRuntime) -> Result<(), Fail> {
    for (text, row) in REPEATS {
        let Some(made) = made_of(rt.alloc(), text, row)? else {
            return Err(Fail::from("nothing to replace"));
        };
        match read_text(rt.alloc(), made.text.as_slice()) {
            Ok(Text::Repeating(repeats)) => {
                let Repeats {
                    snapshot,
                    common,
                    double,
                } = &repeats;
                let (top, length, links) = (snapshot.top, snapshot.length, &snapshot.links);
                let shown = format!(in rt.alloc();
                    "{common:?} {double:?} {top} {length} {links:?}"
                )?;
                let shown = shown.as_str();
                assert!(&rt; shown == REPEATED, "{shown}");
            }
            Ok(Text::One(_)) => return Err(Fail::from("its list has no element twice")),
            Err(_) => return Err(Fail::from("it isn't read")),
        }
    }
    Ok(())
}

/// A text that is too long says so.
#[test]
fn a_text_that_is_too_long_says_so(rt: HostRuntime) {
    if let Ok(line) = format!(in rt.alloc(); "{}", SnapshotFault::TooLong) {
        let line = line.as_str();
        assert!(&rt; line == "snapshot: more than 2147483647 bytes", "{line}");
    }
}

/// A text says how many elements are on the stack.
#[test]
fn the_length_is_told(rt: HostRuntime) {
    for text in [WORDS, LIST] {
        if let Ok((_, length)) = with_length(rt.alloc(), text.as_bytes()) {
            assert!(&rt; length == 2, "{length} elements");
        }
    }
}

/// The snapshots of both forms are lawful.
#[test]
fn both_forms_are_lawful(rt: HostRuntime) {
    for text in [WORDS, LIST] {
        if let Ok(snapshot) = read_snapshot(rt.alloc(), text.as_bytes()) {
            if snapshot.limits.check().is_err() {
                assert!(&rt; false, "no pool: {text}");
            } else if let Err(fault) = audit(rt.alloc(), &snapshot) {
                let memory = fault == snapshot::fault::Fault::OutOfMemory;
                assert!(&rt; memory, "{fault:?}: {text}");
            }
        }
    }
}

/// Asserts that what is written of a snapshot reads back as the same.
fn assert_reads_back(
    rt: &impl Abort,
    alloc: Global,
    snapshot: &Snapshot,
) -> Result<(), AllocError> {
    let before = format!(in alloc; "{snapshot:?}")?;
    if let Ok(json) = snapshot_json(alloc, snapshot) {
        let (after, again) = shown(rt, alloc, json.as_slice(), before.as_str())?;
        let (before, after) = (before.as_str(), after.as_str());
        assert!(rt; before == after, "{before}, and then {after}");
        assert!(rt;
            json.as_slice() == again.as_slice(),
            "two texts of {before}"
        );
    }
    Ok(())
}

/// Drawn snapshots of all kinds, lawful or not, read back as they were written.
#[test]
fn what_is_written_reads_back(rt: HostRuntime) {
    let mut source = Source::new(1);
    for _ in 0..2000 {
        if let Ok(snapshot) = drawn(rt.alloc(), &mut source) {
            let _ = assert_reads_back(&rt, rt.alloc(), &snapshot);
        }
    }
}

/// Whichever request for memory is refused, a text is read as with ample memory, or its reading is
/// refused as out of memory.
#[test]
fn refused_memory_changes_no_reading(rt: HostRuntime) {
    both_forms_in(&rt, rt.alloc());
    if let Some(row) = OF_WORDS.last() {
        assert_told(&rt, rt.alloc(), WORDS, &[*row]);
    }
    if let Some(row) = OF_LIST.last() {
        assert_told(&rt, rt.alloc(), LIST, &[*row]);
    }
}

/// Both forms with whatever memory there is.
fn both_forms_in(rt: &impl Abort, alloc: Global) {
    if let Ok((words, json)) = shown(rt, alloc, WORDS.as_bytes(), "words") {
        assert!(rt;
            words.as_str() == BOTH && json.as_slice() == WRITTEN.as_bytes(),
            "words"
        );
    }
    for (text, name) in [(LIST, "a list"), (DUMPED, "a dump")] {
        if let Ok((list, _)) = shown(rt, alloc, text.as_bytes(), name) {
            assert!(rt; list.len() == BOTH.len(), "{name}");
        }
    }
}

/// The line of a snapshot's first fault, or `Ok(None)` where it has none.
fn line_of(alloc: Global, snapshot: &Snapshot) -> Result<Option<Vec<u8>>, Refusal> {
    snapshot.limits.check()?;
    match audit(alloc, snapshot) {
        Ok(_) => Ok(None),
        Err(Fault::OutOfMemory) => Err(Refusal::OutOfMemory),
        Err(fault) => Ok(Some(fault_line(alloc, snapshot, fault)?)),
    }
}

/// The line of the first fault of a text's snapshot, where it is one that has a fault.
fn line_of_text(alloc: Global, members: &Members) -> Result<Option<Vec<u8>>, Refusal> {
    let Ok(text) = written(alloc, LIMITS, members) else {
        return Err(Refusal::OutOfMemory);
    };
    match read_snapshot(alloc, text.as_bytes()) {
        Ok(snapshot) => line_of(alloc, &snapshot),
        Err(_) => Err(Refusal::OutOfMemory),
    }
}

/// Each snapshot with a fault has the line that says which, and where.
#[test]
fn each_fault_has_its_line(rt: HostRuntime) {
    for row in FAULTS {
        let told = line_of_text(rt.alloc(), &row.members);
        let line = row.line;
        let is = match &told {
            Ok(Some(told)) => told.as_slice() == line.as_bytes(),
            Ok(None) => false,
            Err(_) => false,
        };
        assert!(&rt; is, "not told: {line}");
    }
}

/// Whichever request for memory is refused, the first fault has its line, or memory was refused.
#[test]
fn refused_memory_changes_no_line(rt: HostRuntime) {
    if let Some(row) = FAULTS.last() {
        let told = line_of_text(rt.alloc(), &row.members);
        let line = row.line;
        let is = match &told {
            Ok(Some(told)) => told.as_slice() == line.as_bytes(),
            Ok(None) => false,
            Err(cause) => *cause == Refusal::OutOfMemory,
        };
        assert!(&rt; is, "told otherwise: {line}");
    }
}

/// Each pool has its picture.
#[test]
fn each_pool_has_its_picture(rt: HostRuntime) {
    for (population, wanted) in PICTURES {
        let dot = picture_of(rt.alloc(), *population);
        let is = match &dot {
            Ok(dot) => dot.as_slice() == wanted.as_bytes(),
            Err(_) => false,
        };
        assert!(&rt; is, "of {population} elements not: {wanted}");
    }
}

/// Whichever request for memory is refused, a pool has its picture, or memory was refused.
#[test]
fn refused_memory_changes_no_picture(rt: HostRuntime) {
    if let Some((population, wanted)) = PICTURES.first() {
        let is = match &picture_of(rt.alloc(), *population) {
            Ok(dot) => dot.as_slice() == wanted.as_bytes(),
            Err(cause) => *cause == Refusal::OutOfMemory,
        };
        assert!(&rt; is, "otherwise than {wanted}");
    }
}
