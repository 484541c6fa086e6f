//! The shared part as lists: its limits, what a new one has, and the refusals.

use crate::equal::same;
use commons::limits::{Limits, PutRule};
use commons::place::Place;
use commons::refusal::Refusal;
use commons::site::PlainSite;
use std::test::Fail;

const LIMITS: Limits = Limits {
    population: 3,
    cache: 0,
    workers: 2,
    desks: 1,
    buf: 2_048,
    ref_limit: 65_535,
    tries: 8,
    start_count: 0,
    put_rule: PutRule::Keep,
};

// How often an element is held by worker 1 and by worker 2, and its place.
fn held(site: &PlainSite, element: u32) -> Option<(u32, u32, Place)> {
    let limits = site.limits();
    if limits.workers < 2 || u64::from(element) >= limits.population {
        return None;
    }
    let place = site.places().get(element as usize).copied()?;
    Some((site.hold(1, element), site.hold(2, element), place))
}

#[test]
fn a_pool_has_16777214_elements_at_most(rt: HostRuntime) {
    let counts = [
        (0, Err(Refusal::BadPool)),
        (65_534, Ok(())),
        (65_535, Ok(())),
        (16_777_214, Ok(())),
        (16_777_215, Err(Refusal::BadPool)),
    ];
    for (population, wanted) in counts {
        let limits = Limits {
            population,
            ..LIMITS
        };
        same(&rt, &limits.check(), &wanted, "the limits");
    }
}

#[test]
fn a_new_site_has_all_elements_in_the_common_list(rt: HostRuntime) -> Result<(), Fail> {
    let site = PlainSite::make(rt.alloc(), &LIMITS)?;
    let lists = (site.common(), site.places());
    let wanted = ([2, 1, 0].as_slice(), [Place::Common; 3].as_slice());
    same(&rt, &lists, &wanted, "the common list and the places");
    let shown = (site.limits(), site.common_count());
    same(
        &rt,
        &shown,
        &(LIMITS, 3),
        "the limits, and how many are common",
    );
    let holds = (held(&site, 0), held(&site, 2));
    let free = Some((0, 0, Place::Common));
    same(&rt, &holds, &(free, free), "elements 0 and 2");
    let limits = Limits {
        population: 70_000,
        ..LIMITS
    };
    let large = PlainSite::make(rt.alloc(), &limits)?;
    same(
        &rt,
        &large.common_count(),
        &70_000,
        "how many are common of a large pool",
    );
    Ok(())
}

// Each refusal with its number and its name, and what is displayed after the name.
static REFUSALS: [(Refusal, u32, &str, &str); 23] = [
    (Refusal::BadPool, 1, "BadPool", ""),
    (Refusal::OutOfMemory, 2, "OutOfMemory", ""),
    (Refusal::NoEntries, 3, "NoEntries", ""),
    (Refusal::Contended, 4, "Contended", ""),
    (Refusal::HeadSpent, 5, "HeadSpent", ""),
    (Refusal::RefSpent, 6, "RefSpent", ""),
    (Refusal::TooManySegs, 7, "TooManySegs", ""),
    (Refusal::NoRoom, 8, "NoRoom", ""),
    (Refusal::TooShort, 9, "TooShort", ""),
    (Refusal::NotDirect, 10, "NotDirect", ""),
    (Refusal::NotIndirect, 11, "NotIndirect", ""),
    (Refusal::InUse, 12, "InUse", ""),
    (Refusal::NoSuchPacket, 13, "NoSuchPacket", ""),
    (Refusal::PacketsFull, 14, "PacketsFull", ""),
    (Refusal::DeskTaken, 15, "DeskTaken", ""),
    (Refusal::DeskEmpty, 16, "DeskEmpty", ""),
    (Refusal::NoSuchDesk, 17, "NoSuchDesk", ""),
    (Refusal::MissingShare(7), 18, "MissingShare", " worker 7"),
    (Refusal::StrangerShare, 19, "StrangerShare", ""),
    (Refusal::ScriptFault(12), 20, "ScriptFault", " line 12"),
    (Refusal::StepRefused, 21, "StepRefused", ""),
    (Refusal::Foreign, 22, "Foreign", ""),
    (Refusal::SamePacket, 23, "SamePacket", ""),
];

#[test]
fn each_refusal_has_its_number_and_displays_its_name(rt: HostRuntime) -> Result<(), Fail> {
    for (refusal, number, name, more) in REFUSALS.iter() {
        let told = format!(in rt.alloc(); "{refusal}")?;
        let behind = told.as_str().strip_prefix(*name);
        same(
            &rt,
            &(refusal.number(), refusal.name(), behind),
            &(*number, *name, Some(*more)),
            *name,
        );
    }
    Ok(())
}
