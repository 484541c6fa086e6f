//! In which order the calls on two pools come, which no public contract tells: each notes its calls
//! in one list with the other's.

ghost use Rattle.mbuf.specs.Twins.{OwnTwin};

use crate::equal::same;
use commons::limits::{Limits, PutRule};
use commons::packet::Packet;
use commons::plain::PlainCommons;
use commons::refusal::{Lowered, Refusal};
use commons::shared::Commons;
use commons::site::PlainSite;
use mbuf::acts::Act;
use mbuf::twin::Twin;
use std::alloc::Global;
use std::cell::Cell;
use std::test::Fail;

/// A shared pool that notes a digit for each hold that ends and another for each list that is put.
#[derive(Drop)]
struct Noting<'n, C> {
    inner: C,
    ends: u64,
    puts: u64,
    noted: &'n Cell<u64>,
}

impl<C> Noting<'_, C> {
    fn note(&self, digit: u64) {
        self.noted
            .set(self.noted.get().wrapping_mul(10).wrapping_add(digit));
    }
}

impl<C: Commons> Commons for Noting<'_, C> {
    ghost side = { λ c. C.side c.inner };

    ghost did = { λ c call readings d. C.did c.inner call readings d.inner };

    fn get_list(&mut self, out: &mut [u32]) -> Result<(), Refusal> {
        self.inner.get_list(out)
    }

    fn put_list(&mut self, list: &[u32]) -> Result<(), Refusal> {
        self.note(self.puts);
        self.inner.put_list(list)
    }

    fn claim(&mut self, element: u32) {
        self.inner.claim(element)
    }

    fn count(&mut self, element: u32) -> u32 {
        self.inner.count(element)
    }

    fn raise(&mut self, element: u32) -> Result<(), Refusal> {
        self.inner.raise(element)
    }

    fn lower(&mut self, element: u32) -> Lowered {
        self.note(self.ends);
        self.inner.lower(element)
    }

    fn offer(&mut self, desk: u32, packet: Packet) -> Result<(), (Refusal, Packet)> {
        self.inner.offer(desk, packet)
    }

    fn take(&mut self, desk: u32) -> Result<Packet, Refusal> {
        self.inner.take(desk)
    }

    fn common_count(&mut self) -> u32 {
        self.inner.common_count()
    }

    ghost hand_once = { λ c. C.hand_once c.inner };

    ghost hand_below = { λ c. C.hand_below c.inner };

    ghost holds_below = { λ c. C.holds_below c.inner };

    ghost apart = { λ c. C.apart c.inner };

    ghost header_once = { λ c. C.header_once c.inner };

    ghost header_held = { λ c. C.header_held c.inner };
}

const LIMITS: Limits = Limits {
    population: 4,
    cache: 0,
    workers: 1,
    desks: 0,
    buf: 2_048,
    ref_limit: 65_535,
    tries: 8,
    start_count: 0,
    put_rule: PutRule::Keep,
};

// Clones a packet of two segments into the second pool, frees the packet first if that is asked
// for, and then the clone, of whose free it answers what was noted.
fn freed<C: Commons, D: Commons>(
    twin: &mut Twin,
    c: &mut Noting<C>,
    d: &mut Noting<D>,
    is_first_freed: bool,
) -> u64
    requires { OwnTwin twin.old (C.side c.old.inner) (D.side d.old.inner) }
{
    let _head = twin.perform_first(c, d, Act::Alloc);
    let _tail = twin.perform_first(c, d, Act::Alloc);
    let _chained = twin.perform_first(c, d, Act::Chain(0, 1));
    let _clone = twin.clone_into(c, d, 0);
    if is_first_freed {
        let _freed = twin.perform_first(c, d, Act::Free(0));
    }
    c.noted.set(0);
    let _freed = twin.free_clone(c, d, 0);
    c.noted.get()
}

// The same with two new pools of these limits.
fn played(alloc: Global, limits: &Limits, is_first_freed: bool) -> Result<u64, Fail> {
    let noted = Cell::new(0);
    let mut first = PlainSite::make(alloc, limits)?;
    let mut second = PlainSite::make(alloc, limits)?;
    let mut twin = Twin::make(alloc, limits, limits, 1)?;
    let order = {
        let one = PlainCommons::new(&mut first, 1);
        let two = PlainCommons::new(&mut second, 1);
        let mut c = Noting {
            inner: one,
            ends: 1,
            puts: 3,
            noted: &noted,
        };
        let mut d = Noting {
            inner: two,
            ends: 2,
            puts: 4,
            noted: &noted,
        };
        freed(&mut twin, &mut c, &mut d, is_first_freed)
    };
    twin.lose();
    Ok(order)
}

/// Of each segment the base's hold ends first, and where it was the last the base is put back; then
/// the own element's hold ends, and the element is put back.
#[test]
fn a_base_goes_back_before_its_clones_own_element(rt: HostRuntime) -> Result<(), Fail> {
    let kept = played(rt.alloc(), &LIMITS, false)?;
    same(&rt, &kept, &124_124, "where the packet is there still");
    let last = played(rt.alloc(), &LIMITS, true)?;
    same(
        &rt,
        &last,
        &13_241_324,
        "where the clone's holds are the last",
    );
    Ok(())
}
