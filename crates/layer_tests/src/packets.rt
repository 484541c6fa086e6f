//! Plays the tables of `rows` on the lists, and looks at what each worker is told and what is left.

ghost use Rattle.std.specs.Prelude.{◌≡◌, ℕ};
ghost use Rattle.commons.specs.Beside.{KeepsSides, LeavesOthers};
ghost use Rattle.commons.specs.Lists.{hand_of, holds_of};
ghost use Rattle.layer_tests.specs.OwnAtSite.{OwnAtSite};

use crate::equal::{same, text_of};
use crate::rows::{
    BULKS, DESKS, ONE, PACKETS, REFUSED_AT_A_GET, REFUSED_AT_A_RAISE, Row, SHARED, Step, Steps,
};
use commons::laws::a_worker_leaves_the_others;
use commons::limits::Limits;
use commons::place::Place;
use commons::plain::PlainCommons;
use commons::site::PlainSite;
use mbuf::acts::{Act, Reply, perform};
use mbuf::packets::Packets;
use std::alloc::Global;
use std::process::Abort;
use std::test::Fail;

// Lets a worker do this.
pub(crate) fn acted(packets: &mut Packets, c: &mut PlainCommons, act: Act) -> Reply
    requires own { OwnAtSite packets.old c.old }
    ensures own { OwnAtSite packets.new c.new }
    ensures others { LeavesOthers c.old c.new }
{
    a_worker_leaves_the_others();
    perform(packets, c, act)
}

// Makes packets one at a time, in the slots from 0 on, or chains those from 0 on to the one in slot
// 0, and says how often that was done.
fn repeated(packets: &mut Packets, c: &mut PlainCommons, count: u32, chains: bool) -> u32
    requires own { OwnAtSite packets.old c.old }
    ensures own { OwnAtSite packets.new c.new }
    ensures others { LeavesOthers c.old c.new }
{
    let mut done = 0u32;
    for slot in 0..count {
        let act = if chains {
            Act::Chain(0, slot)
        } else {
            Act::Alloc
        };
        let is_done = match acted(packets, c, act) {
            Reply::Chained(_, _) => true,
            Reply::Allocated(there, _) => there == slot,
            _ => false,
        };
        if is_done {
            done = done.wrapping_add(1);
        }
    }
    done
}

// A reply as text. Of a bulk of more than 8 packets only the number is reported.
fn told(alloc: Global, reply: &Reply) -> Result<String, Fail> {
    match reply {
        Reply::Bulk(list) if list.len() > 8 => Ok(format!(in alloc; "{} packets", list.len())?),
        _ => text_of(alloc, reply),
    }
}

// How many segments of the packet in a slot use another's buffer.
fn bases(packets: &Packets, slot: u32) -> u32 {
    let mut count = 0u32;
    if let Some(packet) = packets.place(slot) {
        for seg in packet.segs() {
            if seg.base.is_some() {
                count = count.wrapping_add(1);
            }
        }
    }
    count
}

// Lets a worker take a step, and tells what came of it.
#[tactic(auto, using(crate::proofs::BesideLemmas::beside))]
fn said(
    alloc: Global,
    packets: &mut Packets,
    c: &mut PlainCommons,
    step: &Step,
) -> Result<String, Fail>
    requires own { OwnAtSite packets.old c.old }
    ensures own { OwnAtSite packets.new c.new }
    ensures others { LeavesOthers c.old c.new }
{
    match step {
        Step::Act(act) => told(alloc, &acted(packets, c, *act)),
        Step::Makes(count) => text_of(alloc, &repeated(packets, c, *count, false)),
        Step::Chains(count) => text_of(alloc, &repeated(packets, c, *count, true)),
        Step::Segs(slot) => text_of(alloc, &packets.segs(c, *slot)),
        Step::Number => text_of(alloc, &packets.worker()),
        Step::Cache => text_of(alloc, &packets.cache()),
        Step::Place(slot) => text_of(alloc, &packets.place(*slot)),
        Step::Bases(slot) => text_of(alloc, &bases(packets, *slot)),
    }
}

// Lets a worker take its steps, each of which has to say what is expected.
fn all_said<R: Abort + AllocGlobal>(
    rt: &R,
    name: &str,
    packets: &mut Packets,
    c: &mut PlainCommons,
    steps: Steps,
) -> Result<(), Fail>
    requires own { OwnAtSite packets.old c.old }
    ensures others { LeavesOthers c.old c.new }
{
    for (place, (step, wanted)) in steps.iter().enumerate() {
        let said = said(rt.alloc(), packets, c, step)?;
        let at = (packets.worker(), place);
        same(
            rt,
            &("worker, step", at, said.as_str()),
            &("worker, step", at, *wanted),
            name,
        );
    }
    Ok(())
}

// Lets a worker, who has nothing yet, take its steps.
#[tactic(auto, using(crate::proofs::BesideLemmas::beside))]
fn turn<R: Abort + AllocGlobal>(
    rt: &R,
    name: &str,
    site: &mut PlainSite,
    number: u32,
    steps: Steps,
) -> Result<(), Fail>
    requires hand { (i : ℕ) → hand_of site.old number i ≡ 0 }
    requires holds { (i : ℕ) → holds_of site.old number i ≡ 0 }
    ensures sides { KeepsSides number site.old site.new }
{
    let mut packets = Packets::make(rt.alloc(), &site.limits(), number)?;
    let mut c = PlainCommons::new(site, number);
    let taken = all_said(rt, name, &mut packets, &mut c, steps);
    packets.lose();
    taken
}

// Lets the workers of a new pool, two at most, take their steps, one worker after another, and
// answers the pool.
fn played<R: Abort + AllocGlobal>(
    rt: &R,
    name: &str,
    limits: &Limits,
    workers: &[Steps],
) -> Result<PlainSite, Fail> {
    let mut site = PlainSite::make(rt.alloc(), limits)?;
    for index in 0..2u32 {
        let Some(steps) = workers.get(index as usize) else {
            break;
        };
        turn(rt, name, &mut site, index + 1, steps)?;
    }
    Ok(site)
}

// These elements are held so often in turn, 0 for one in the common list, and all after them are in
// the common list.
fn assert_held<R: Abort>(rt: &R, site: &PlainSite, counts: &[u32], name: &str) {
    let most = site.places().len().max(counts.len());
    same(rt, &site.places().len(), &most, name);
    for (element, place) in site.places().iter().enumerate() {
        let wanted = match counts.get(element) {
            None | Some(0) => Place::Common,
            Some(count) => Place::Held(*count),
        };
        same(rt, &(element, *place), &(element, wanted), name);
    }
}

// Each row goes as it says.
fn play<R: Abort + AllocGlobal>(rt: &R, rows: &[Row]) -> Result<(), Fail> {
    for row in rows {
        let site = played(rt, row.name, &row.limits, row.workers)?;
        if let Some(common) = row.common {
            same(rt, &site.common(), &common, row.name);
        }
        if let Some(held) = row.held {
            assert_held(rt, &site, held, row.name);
        }
    }
    Ok(())
}

#[test]
fn packets_are_made_chained_and_freed_as_each_row_says(rt: HostRuntime) -> Result<(), Fail> {
    play(&rt, &PACKETS)
}

#[test]
fn bulks_go_as_each_row_says(rt: HostRuntime) -> Result<(), Fail> {
    play(&rt, &BULKS)
}

#[test]
fn packets_pass_over_desks_as_each_row_says(rt: HostRuntime) -> Result<(), Fail> {
    play(&rt, &DESKS)
}

#[test]
fn buffers_are_shared_as_each_row_says(rt: HostRuntime) -> Result<(), Fail> {
    play(&rt, &SHARED)
}

// A clone of 32 segments is refused where this many elements are left, and leaves all as before.
#[test]
fn a_clone_refused_at_each_of_its_gets_leaves_all_as_before(rt: HostRuntime) -> Result<(), Fail> {
    for left in 0..32u64 {
        let name = format!(in rt.alloc(); "{left} elements are left")?;
        let limits = Limits {
            population: 32 + left,
            ..ONE
        };
        let site = played(&rt, name.as_str(), &limits, &[&REFUSED_AT_A_GET])?;
        assert_held(&rt, &site, &[1; 32], name.as_str());
    }
    Ok(())
}

// A clone of 32 segments is refused where the count of the element of one of them is at its limit,
// and leaves all as before.
#[test]
fn a_clone_refused_at_each_of_its_raises_leaves_all_as_before(rt: HostRuntime) -> Result<(), Fail> {
    for spent in 0..32u32 {
        let name = format!(in rt.alloc(); "the count of {spent} is at its limit")?;
        let limits = Limits {
            population: 65,
            ref_limit: 2,
            ..ONE
        };
        let mut steps = REFUSED_AT_A_RAISE;
        steps[1] = (Step::Act(Act::Attach(32, spent)), "Attached");
        let mut counts = [1; 33];
        counts[spent as usize] = 2;
        let site = played(&rt, name.as_str(), &limits, &[&steps])?;
        assert_held(&rt, &site, &counts, name.as_str());
    }
    Ok(())
}
