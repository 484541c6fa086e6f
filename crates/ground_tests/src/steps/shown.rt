//! What a row says of a world.

use super::same;
use crate::schedules::End;
use arrayvec::ArrayVec;
use commons::packet::{Packet, Seg};
use std::process::Abort;
use step_core::view::{Chain, Desk, Look, Phase, View, WORKER_PART, Work};
use step_core::world::World;

/// Whether the world is so.
pub(super) fn assert_end<R: Abort>(rt: &R, world: &World, end: &End, name: &str) {
    assert_words(rt, world, end, name);
    assert_common(rt, world, end.common, name);
    assert_counts(rt, world, end.counts, name);
    for (place, view) in world.views().iter().enumerate() {
        assert_view(rt, view, end, place, name);
    }
    for (desk, word) in world.desks().iter().zip(end.desks) {
        same(rt, &desk.word, word, name);
    }
}

/// Whether the head and the length word are so, and there are this many views and desks.
fn assert_words<R: Abort>(rt: &R, world: &World, end: &End, name: &str) {
    let head = world.head();
    let sizes = (world.views().len(), world.desks().len());
    same(
        rt,
        &(head.top, head.count, world.length(), sizes),
        &(
            end.head.0,
            end.head.1,
            end.length,
            (end.credits.len(), end.desks.len()),
        ),
        name,
    );
}

/// Whether the view of the worker at this place is so.
fn assert_view<R: Abort>(rt: &R, view: &View, end: &End, place: usize, name: &str) {
    same(
        rt,
        &(place, Some(view.credit)),
        &(place, end.credits.get(place).copied()),
        name,
    );
    let lists = [
        (&view.hand, end.hands),
        (&view.holds, end.holds),
        (&view.headers, end.headers),
    ];
    for (elems, wanted) in lists {
        let given = (place, Some(elems.as_slice()));
        same(rt, &given, &(place, wanted.get(place).copied()), name);
    }
}

/// The count of an element, of those that are given: 1 where it isn't among them.
fn count_told(counts: &[(usize, u32)], element: usize) -> u32 {
    for (other, count) in counts {
        if *other == element {
            return *count;
        }
    }
    1
}

/// Whether the counts are so.
fn assert_counts<R: Abort>(rt: &R, world: &World, counts: &[(usize, u32)], name: &str) {
    for (element, count) in world.counts().iter().enumerate() {
        let wanted = (element, count_told(counts, element));
        same(rt, &(element, *count), &wanted, name);
    }
}

/// Whether the links lead from the top through these elements to the end.
fn assert_common<R: Abort>(rt: &R, world: &World, common: &[u32], name: &str) {
    let mut next = world.head().top;
    for element in common {
        same(rt, &u64::from(next), &(u64::from(*element) + 1), name);
        next = world.links().get(*element as usize).copied().unwrap_or(0);
    }
    same(rt, &next, &0, name);
}

/// The numbers of a row's world, in room that takes no memory.
#[derive(Drop)]
pub(super) struct Numbers {
    all: ArrayVec<u64, 256>,
    /// Whether there were more than there is room for.
    is_over: bool,
}

impl Numbers {
    /// One more number.
    fn add(&mut self, number: u64) {
        self.is_over |= self.all.try_push(number).is_err();
    }

    /// These numbers, one after another.
    fn add_all(&mut self, numbers: &[u64]) {
        for number in numbers {
            self.add(*number);
        }
    }

    /// How many elements, and then each.
    fn add_elems(&mut self, elems: &[u32]) {
        self.add(elems.len() as u64);
        for element in elems {
            self.add(u64::from(*element));
        }
    }

    /// How many segments, and then each with its base and lengths.
    fn add_packet(&mut self, packet: &Packet) {
        self.add(packet.segs().len() as u64);
        for seg in packet.segs() {
            self.add_seg(seg);
        }
    }

    fn add_seg(&mut self, seg: &Seg) {
        self.add_all(&[
            u64::from(seg.elem),
            seg.base.map_or(u64::MAX, u64::from),
            u64::from(seg.data_off),
            u64::from(seg.data_len),
            u64::from(seg.buf_len),
        ]);
    }

    fn add_desk(&mut self, desk: &Desk) {
        self.add(desk.word);
        match &desk.slot {
            Some(packet) => self.add_packet(packet),
            None => self.add(0),
        }
    }

    fn add_look(&mut self, look: &Option<Look>) {
        match look {
            Some(look) => {
                self.add_all(&[u64::from(look.head.top), look.head.count]);
                self.add_elems(look.front.as_slice());
                self.add(u64::from(look.next));
            }
            None => self.add(u64::MAX),
        }
    }

    fn add_chain(&mut self, chain: &Option<Chain>) {
        match chain {
            Some(chain) => {
                self.add_elems(chain.items.as_slice());
                self.add(u64::from(chain.end));
            }
            None => self.add(u64::MAX),
        }
    }

    fn add_phase(&mut self, phase: &Phase) {
        match phase {
            Phase::ToFill => self.add(0),
            Phase::Filled(packet) => {
                self.add(1);
                self.add_packet(packet);
            }
            Phase::Seized(packet) => {
                self.add(2);
                self.add_packet(packet);
            }
            Phase::TakenOut => self.add(3),
        }
    }

    fn add_work(&mut self, work: &Option<Work>) {
        match work {
            Some(work) => {
                self.add(u64::from(work.desk));
                self.add_phase(&work.phase);
            }
            None => self.add(u64::MAX),
        }
    }

    fn add_view(&mut self, view: &View) {
        for elems in [&view.hand, &view.zeros, &view.holds, &view.headers] {
            self.add_elems(elems.as_slice());
        }
        self.add_all(&[view.credit, view.seen, view.part / WORKER_PART]);
        self.add_look(&view.look);
        self.add_chain(&view.chain);
        self.add_work(&view.work);
    }

    fn add_world(&mut self, world: &World) {
        let head = world.head();
        self.add_all(&[u64::from(head.top), head.count, world.length()]);
        self.add_elems(world.links());
        self.add_elems(world.counts());
        for desk in world.desks() {
            self.add_desk(desk);
        }
        for view in world.views() {
            self.add_view(view);
        }
    }

    /// The numbers.
    pub(super) fn as_slice(&self) -> &[u64] {
        self.all.as_slice()
    }
}

/// All numbers of a world, one after another: two worlds that have the same are the same.
pub(super) fn numbers_of<R: Abort>(rt: &R, world: &World) -> Numbers {
    let mut numbers = Numbers {
        all: ArrayVec::new(),
        is_over: false,
    };
    numbers.add_world(world);
    assert!(rt; !numbers.is_over, "the numbers of a world are more");
    numbers
}
