//! Two workers of one pool, each with packets of its own, which the other's calls leave so.

ghost use Rattle.std.specs.Prelude.{◌≡◌, ◌≤◌, ℕ, length};
ghost use Rattle.commons.specs.Beside.{KeepsSides};
ghost use Rattle.commons.specs.Lists.{hand_of, holds_of, side_of};
ghost use Rattle.mbuf.specs.Own.{Own};

use crate::equal::same;
use crate::packets::acted;
use commons::limits::{Limits, PutRule};
use commons::plain::PlainCommons;
use commons::refusal::Refusal;
use commons::shared::Commons;
use commons::site::PlainSite;
use mbuf::acts::{Act, Reply};
use mbuf::laws::packets_stay_own;
use mbuf::packets::{Packets, Pid};
use std::alloc::Global;
use std::test::Fail;

const LIMITS: Limits = Limits {
    population: 3,
    cache: 0,
    workers: 2,
    desks: 1,
    buf: 2_048,
    ref_limit: 65_535,
    tries: 8,
    start_count: 0,
    put_rule: PutRule::Keep,
};

// Lets a worker make a packet at a site, where every other worker keeps what it has.
fn made_at(site: &mut PlainSite, worker: u32, packets: &mut Packets) -> Reply
    requires low { 1 ≤ worker }
    requires high { worker ≤ site.old.limits.workers }
    requires own { Own packets.old (side_of site.old worker) }
    ensures own { Own packets.new (side_of site.new worker) }
    ensures sides { KeepsSides worker site.old site.new }
{
    let mut c = PlainCommons::new(site, worker);
    acted(packets, &mut c, Act::Alloc)
}

// A byte of the buffer of a packet's first segment, for a caller that keeps a buffer for each
// element of the pool: each element of a packet is one of them.
fn byte_of<C: Commons>(packets: &Packets, c: &C, buffers: &[u8], p: Pid) -> Result<u8, Refusal>
    requires own { Own packets.now (C.side c.now) }
    requires long { length buffers.now ≡ (C.side c.now).limits.population }
{
    match packets.place(p) {
        Some(packet) => Ok(buffers[packet.segs()[0].elem as usize]),
        None => Err(Refusal::NoSuchPacket),
    }
}

// The first segment's element of the packet in slot 0.
fn first_elem(packets: &Packets) -> Option<u32> {
    Some(packets.place(0)?.segs()[0].elem)
}

// Makes worker 2 of a pool of three elements, who has nothing yet, lets worker 1 make a packet and
// then worker 2, and tells of their elements and of the first one's byte. What a worker does leaves
// the other's packets the other's own.
fn with_second(
    alloc: Global,
    site: &mut PlainSite,
    first: &mut Packets,
) -> Result<(Option<u32>, Option<u32>, Result<u8, Refusal>), Refusal>
    requires population { site.old.limits.population ≡ 3 }
    requires two { 2 ≤ site.old.limits.workers }
    requires first { Own first.old (side_of site.old 1) }
    requires hand { (i : ℕ) → hand_of site.old 2 i ≡ 0 }
    requires holds { (i : ℕ) → holds_of site.old 2 i ≡ 0 }
{
    packets_stay_own();
    let mut second = Packets::make(alloc, &site.limits(), 2)?;
    let _one = made_at(site, 1, first);
    let _other = made_at(site, 2, &mut second);
    let other = first_elem(&second);
    second.lose();
    let c = PlainCommons::new(site, 1);
    Ok((first_elem(first), other, byte_of(first, &c, &[7, 8, 9], 0)))
}

// A second worker begins at a pool where the first has acted, and each has a packet of its own.
#[test]
fn two_workers_of_one_pool_make_packets_in_turn(rt: HostRuntime) -> Result<(), Fail> {
    let mut site = PlainSite::make(rt.alloc(), &LIMITS)?;
    let mut first = Packets::make(rt.alloc(), &LIMITS, 1)?;
    let told = with_second(rt.alloc(), &mut site, &mut first);
    first.lose();
    same(
        &rt,
        &told,
        &Ok((Some(0), Some(1), Ok(7))),
        "the elements, and the first one's byte",
    );
    Ok(())
}
