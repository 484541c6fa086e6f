//! The machine: the functions that walk the tables. A row that fails is named.

use crate::acts::{Act, Told, step_of};
use crate::schedules;
use crate::schedules::Row;
use commons::limits::Limits;
use commons::refusal::Refusal;
use head_word::{next_count, pack, unpack};
use std::alloc::{AllocError, Global};
use std::fmt::Debug;
use std::process::Abort;
use std::test::Fail;
use step_core::run::run;
use step_core::step::{Outcome, Step};
use step_core::world::World;
use step_text::run_steps;

mod answers;
mod heads;
mod places;
mod random;
mod refusals;
mod shown;
mod stopped;
mod texts;

use answers::is_told;
use shown::{assert_end, numbers_of};

/// A name, a pool's limits, steps that are all done, in two parts, and steps that are then refused
/// one after another.
type RefusedRow = (
    &'static str,
    Limits,
    &'static [(u32, Act)],
    &'static [(u32, Act)],
    &'static [(u32, Act)],
);

/// Asserts that both are equal, and else says of what, with both.
fn same<R: Abort, T: PartialEq + Debug>(rt: &R, given: &T, wanted: &T, what: &str) {
    assert!(rt; *given == *wanted, "{what}: {given:?}, not {wanted:?}");
}

#[test]
fn a_head_has_one_word(rt: HostRuntime) {
    for (top, count, word) in heads::WORDS {
        let given = (pack(*top, *count), unpack(*word));
        same(&rt, &given, &(*word, Some((*top, *count))), "a head");
    }
    for word in heads::NO_HEADS {
        same(&rt, &(*word, unpack(*word)), &(*word, None), "no head");
    }
    for (count, next) in heads::COUNTS {
        same(
            &rt,
            &(*count, next_count(*count)),
            &(*count, *next),
            "a count",
        );
    }
}

/// An answer is the one that its row gives for the step at this place.
fn assert_told<R: Abort>(
    rt: &R,
    answer: &Result<Outcome, Refusal>,
    told: &Told,
    place: usize,
    name: &str,
) {
    assert!(rt; is_told(answer, told), "{name}: step {place}: {answer:?}");
}

/// A step of a worker, and what it answers.
fn answer_of(world: &mut World, worker: u32, act: Act) -> Result<Outcome, Refusal> {
    world.step(worker, step_of(act))
}

/// Plays these steps, each of which answers as its row says.
fn play_told<R: Abort>(rt: &R, world: &mut World, steps: &[(u32, Act, Told)], name: &str) {
    for (place, (worker, act, told)) in steps.iter().enumerate() {
        let answer = answer_of(world, *worker, *act);
        assert_told(rt, &answer, told, place, name);
    }
}

fn step_rows<R: Abort + AllocGlobal>(rt: &R, rows: &[Row]) -> Result<(), Fail> {
    for (name, limits, steps, end) in rows {
        let mut world = World::open(rt.alloc(), limits)?;
        play_told(rt, &mut world, steps, name);
        assert_end(rt, &world, end, name);
    }
    Ok(())
}

#[test]
fn each_step_answers_as_its_row_says(rt: HostRuntime) -> Result<(), Fail> {
    for rows in [schedules::STACK, schedules::COUNTS, schedules::REFUSED] {
        step_rows(&rt, rows)?;
    }
    Ok(())
}

/// The steps of a row as a schedule.
fn schedule_of(alloc: Global, steps: &[(u32, Act, Told)]) -> Result<Vec<(u32, Step)>, AllocError> {
    let mut schedule = Vec::with_capacity(alloc, steps.len())?;
    for (worker, act, _told) in steps {
        schedule.push((*worker, step_of(*act)))?;
    }
    Ok(schedule)
}

/// These outcomes are those that a row gives for its steps.
fn assert_outcomes<R: Abort>(
    rt: &R,
    outcomes: Vec<Outcome>,
    steps: &[(u32, Act, Told)],
    name: &str,
) {
    same(rt, &outcomes.len(), &steps.len(), name);
    let mut place = 0usize;
    for (outcome, (_worker, _act, told)) in outcomes.into_iter().zip(steps) {
        assert_told(rt, &Ok(outcome), told, place, name);
        place = place.saturating_add(1);
    }
}

/// What a world answers to all steps of a row at once.
fn outcomes_of(
    alloc: Global,
    world: &mut World,
    steps: &[(u32, Act, Told)],
) -> Result<Vec<Outcome>, Fail> {
    let schedule = schedule_of(alloc, steps)?;
    let outcomes = run(alloc, world, schedule.as_slice())?;
    Ok(outcomes)
}

fn run_rows<R: Abort + AllocGlobal>(rt: &R, rows: &[Row]) -> Result<(), Fail> {
    for (name, limits, steps, end) in rows {
        let mut world = World::open(rt.alloc(), limits)?;
        let outcomes = outcomes_of(rt.alloc(), &mut world, steps)?;
        assert_outcomes(rt, outcomes, steps, name);
        assert_end(rt, &world, end, name);
    }
    Ok(())
}

#[test]
fn a_run_has_the_same_outcomes(rt: HostRuntime) -> Result<(), Fail> {
    for rows in [schedules::STACK, schedules::COUNTS] {
        run_rows(&rt, rows)?;
    }
    Ok(())
}

/// Plays these steps, none of which is refused.
fn play_all<R: Abort>(rt: &R, world: &mut World, steps: &[(u32, Act)], name: &str) {
    for (place, (worker, act)) in steps.iter().enumerate() {
        let refusal = answer_of(world, *worker, *act).err();
        same(rt, &(place, refusal), &(place, None), name);
    }
}

/// Plays these steps, each of which is refused and changes nothing.
fn refuse_all<R: Abort>(rt: &R, world: &mut World, steps: &[(u32, Act)], name: &str) {
    let before = numbers_of(rt, world);
    for (place, (worker, act)) in steps.iter().enumerate() {
        let answer = answer_of(world, *worker, *act);
        assert_told(rt, &answer, &Told::Refused, place, name);
        let after = numbers_of(rt, world);
        same(
            rt,
            &(place, after.as_slice()),
            &(place, before.as_slice()),
            name,
        );
    }
}

fn refused_rows<R: Abort + AllocGlobal>(rt: &R, rows: &[RefusedRow]) -> Result<(), Fail> {
    for (name, limits, begun, then, refused) in rows {
        let mut world = World::open(rt.alloc(), limits)?;
        play_all(rt, &mut world, begun, name);
        play_all(rt, &mut world, then, name);
        refuse_all(rt, &mut world, refused, name);
    }
    Ok(())
}

#[test]
fn a_refused_step_leaves_the_world_as_it_was(rt: HostRuntime) -> Result<(), Fail> {
    for rows in [refusals::STACK, refusals::COUNTS, refusals::DESKS] {
        refused_rows(&rt, rows)?;
    }
    Ok(())
}

/// The world of these limits, opened once more where memory was refused.
fn world_at_last<R: Abort + AllocGlobal>(
    rt: &R,
    limits: &Limits,
    name: &str,
) -> Result<World, Refusal> {
    match World::open(rt.alloc(), limits) {
        Ok(world) => Ok(world),
        Err(cause) => {
            same(rt, &cause, &Refusal::OutOfMemory, name);
            World::open(rt.alloc(), limits)
        }
    }
}

/// What a step answers, taken once more where memory was refused, which changes nothing.
fn answer_at_last<R: Abort>(
    rt: &R,
    world: &mut World,
    worker: u32,
    act: Act,
    name: &str,
) -> Result<Outcome, Refusal> {
    let before = numbers_of(rt, world);
    match answer_of(world, worker, act) {
        Err(Refusal::OutOfMemory) => {
            let after = numbers_of(rt, world);
            same(rt, &after.as_slice(), &before.as_slice(), name);
            answer_of(world, worker, act)
        }
        answer => answer,
    }
}

/// Whichever request for memory is refused, a step is as its row says or `OutOfMemory`, and then
/// changes nothing.
#[test]
fn refused_memory_changes_no_answer(rt: HostRuntime) -> Result<(), Fail> {
    let (name, limits, steps, end) = schedules::FOR_MEMORY;
    let mut world = world_at_last(&rt, &limits, name)?;
    for (place, (worker, act, told)) in steps.iter().enumerate() {
        let answer = answer_at_last(&rt, &mut world, *worker, *act, name);
        assert_told(&rt, &answer, told, place, name);
    }
    assert_end(&rt, &world, &end, name);
    Ok(())
}

/// Whichever request for memory is refused, a run has the outcomes of its row or is `OutOfMemory`.
#[test]
fn refused_memory_changes_no_outcome(rt: HostRuntime) -> Result<(), Fail> {
    let (name, limits, steps, end) = schedules::FOR_MEMORY;
    let mut world = world_at_last(&rt, &limits, name)?;
    let Ok(schedule) = schedule_of(rt.alloc(), steps) else {
        return Ok(());
    };
    match run(rt.alloc(), &mut world, schedule.as_slice()) {
        Ok(outcomes) => {
            assert_outcomes(&rt, outcomes, steps, name);
            assert_end(&rt, &world, &end, name);
        }
        Err(cause) => same(&rt, &cause, &Refusal::OutOfMemory, name),
    }
    Ok(())
}

/// What a script prints.
fn printed_by(alloc: Global, script: &str) -> Result<Vec<u8>, Refusal> {
    run_steps(alloc, script.as_bytes())
}

/// A script prints its text.
fn assert_prints<R: Abort + AllocGlobal>(
    rt: &R,
    name: &str,
    script: &str,
    text: &str,
) -> Result<(), Fail> {
    let printed = printed_by(rt.alloc(), script)?;
    let given = str::from_utf8(printed.as_slice()).ok();
    same(rt, &given, &Some(text), name);
    Ok(())
}

#[test]
fn each_script_of_steps_prints_its_text(rt: HostRuntime) -> Result<(), Fail> {
    for (name, script, text) in texts::ROWS {
        assert_prints(&rt, name, script, text)?;
    }
    for (name, text, refusal) in texts::FAULTY {
        let cause = printed_by(rt.alloc(), text).err();
        same(&rt, &cause, &Some(*refusal), name);
    }
    Ok(())
}

/// How often an element stands in the common list and in hands of a printed world, and once more
/// where it is held, by workers or by a packet on a full desk.
fn places_in(text: &str, element: &str) -> usize {
    let mut places = 0usize;
    let mut is_held = false;
    for line in text.lines() {
        if let Some((what, elements)) = line.split_once(':') {
            let times = elements.split(' ').filter(|word| *word == element).count();
            if what.starts_with("common") || what.starts_with("hand") {
                places = places.saturating_add(times);
            } else if what.starts_with("holds") || what.starts_with("desk") {
                is_held |= times > 0;
            }
        }
    }
    places.saturating_add(usize::from(is_held))
}

/// Each of the four elements is in one place.
fn assert_each_in_one_place<R: Abort>(rt: &R, text: &str, name: &str) {
    for element in ["0", "1", "2", "3"] {
        same(
            rt,
            &(element, places_in(text, element)),
            &(element, 1),
            name,
        );
    }
}

/// The script of a row, and what it prints: each answer behind the number of its step's line, and
/// then the world.
fn texts_of(alloc: Global, row: &stopped::Row) -> Result<(String, String), Fail> {
    let steps = format!(in alloc; "{}{}{}", row.begun, row.then, row.other)?;
    let mut script = format!(in alloc; "pool 4 workers 2 desks 1\n")?;
    let mut text = String::new(alloc);
    for (number, line) in (2u64..).zip(steps.as_str().lines()) {
        let Some((step, answer)) = line.split_once(" = ") else {
            return Err(Fail::from("a step without an answer"));
        };
        writeln!(script, "{step}")?;
        writeln!(text, "{number}: {answer}")?;
    }
    text.push_str(row.world)?;
    Ok((script, text))
}

/// Each row prints its text, with each element in one place.
fn stopped_rows<R: Abort + AllocGlobal>(rt: &R, rows: &[stopped::Row]) -> Result<(), Fail> {
    for row in rows {
        let (script, text) = texts_of(rt.alloc(), row)?;
        assert_prints(rt, row.last, script.as_str(), text.as_str())?;
        assert_each_in_one_place(rt, row.world, row.last);
    }
    Ok(())
}

#[test]
fn wherever_a_worker_stopped_each_element_is_in_one_place(rt: HostRuntime) -> Result<(), Fail> {
    let mut kinds = 0usize;
    for table in [stopped::LISTS, stopped::COUNTS, stopped::DESKS] {
        kinds = kinds.wrapping_add(table.len());
        stopped_rows(&rt, table)?;
    }
    same(&rt, &kinds, &19, "the kinds of step");
    Ok(())
}

/// Whichever request for memory is refused, the text is as its row says or `OutOfMemory`.
#[test]
fn refused_memory_changes_no_text(rt: HostRuntime) {
    let (name, script, text) = texts::FOR_MEMORY;
    match printed_by(rt.alloc(), script) {
        Ok(printed) => same(&rt, &printed.as_slice(), &text.as_bytes(), name),
        Err(cause) => same(&rt, &cause, &Refusal::OutOfMemory, name),
    }
}
