//! Lists of elements.

ghost use Rattle.std.specs.Prelude.{◌≡◌};
ghost use Rattle.step_core.specs.Bags.{still_held};

use commons::packet::{Packet, Seg};
use std::alloc::{AllocError, Global};
use std::marker::Model;

/// A list of elements, which contracts see as that list and nothing else.
#[derive(Debug, Drop)]
pub struct Elems {
    items: Vec<u32>,
}

impl Model for Elems {
    ghost use Rattle.std.specs.Prelude.{List, ℕ};

    ghost Value = { List ℕ };

    ghost view = { λ e. e.items.items };
}

/// Keeps those elements that are also among the holds.
fn keep(items: &mut Vec<u32>, holds: &Elems)
    ensures { items.new.items ≡ still_held items.old.items holds.now }
{
    let mut kept = 0;
    for i in 0..items.len() {
        let element = items[i];
        if !holds.has(element) {
            continue;
        }
        items[kept] = element;
        kept += 1;
    }
    items.truncate(kept);
}

impl Elems {
    ghost use Rattle.std.specs.Prelude.{◌≡◌, ◌≤◌, ◌<◌, ◌++◌, ◌∷◌, ◌==◌, [], length, false, true, take, IfOk, IfErr, OnOk, OnErr, MatchOption, is_ok, if◌then◌else◌};
    ghost use Rattle.commons.specs.Bag.{bag};
    ghost use Rattle.commons.specs.Packets.{holds_of_packet, holds_of_seg, own_of_packet};
    ghost use Rattle.step_core.specs.Bags.{has, without, minus, still_held, HasFront};

    /// The empty list, which takes no memory.
    pub fn new(alloc: Global) -> Elems
        ensures { result ≡ [] }
    {
        Elems {
            items: Vec::new(alloc),
        }
    }

    /// The list of this element alone.
    pub fn single(alloc: Global, element: u32) -> Result<Elems, AllocError>
        ensures { IfOk result (λ elems. elems ≡ element ∷ []) }
    {
        let mut elems = Elems::new(alloc);
        elems.push(element)?;
        Ok(elems)
    }

    /// The elements as a slice.
    pub fn as_slice(&self) -> &[u32]
        ensures { result.now ≡ self.now }
    {
        self.items.as_slice()
    }

    /// How many elements there are.
    pub fn len(&self) -> usize
        ensures { result ≡ length self.now }
    {
        self.items.len()
    }

    /// Whether there is no element.
    pub fn is_empty(&self) -> bool
        ensures { result ≡ (length self.now == 0) }
    {
        self.items.is_empty()
    }

    /// Puts an element after the last, or changes nothing.
    pub fn push(&mut self, element: u32) -> Result<(), AllocError>
        ensures ok { OnOk result (self.new ≡ self.old ++ element ∷ []) }
        ensures err { OnErr result (self.new ≡ self.old) }
    {
        match self.items.push(element) {
            Ok(()) => Ok(()),
            Err(_) => Err(AllocError),
        }
    }

    /// Puts an element before the first, or changes nothing.
    pub fn push_front(&mut self, element: u32) -> Result<(), AllocError>
        ensures ok { OnOk result (self.new ≡ element ∷ self.old) }
        ensures err { OnErr result (self.new ≡ self.old) }
    {
        match self.items.insert(0, element) {
            Ok(()) => Ok(()),
            Err(_) => Err(AllocError),
        }
    }

    /// Puts these after the last, or changes nothing.
    pub fn extend(&mut self, elements: &[u32]) -> Result<(), AllocError>
        ensures ok { OnOk result (self.new ≡ self.old ++ elements.now) }
        ensures err { OnErr result (self.new ≡ self.old) }
    {
        match self.items.extend_from_slice(elements) {
            Ok(()) => Ok(()),
            Err(_) => Err(AllocError),
        }
    }

    /// The element of this number, if it stands in the list.
    pub fn find(&self, number: u64) -> Option<u32>
        ensures { MatchOption result (has self.now number ≡ false) (λ element. (element ≡ number) × (has self.now number ≡ true)) }
    {
        for element in self.items.as_slice() {
            if u64::from(*element) == number {
                return Some(*element);
            }
        }
        None
    }

    /// Whether the element stands in the list.
    pub fn has(&self, element: u32) -> bool
        ensures { result ≡ has self.now element }
    {
        self.find(u64::from(element)).is_some()
    }

    /// How often the element of this number stands in the list.
    pub fn count(&self, number: u32) -> usize
        ensures { result ≡ bag self.now number }
    {
        let mut times = 0;
        for element in self.items.as_slice() {
            if *element == number {
                times += 1;
            }
        }
        times
    }

    /// Drops all elements but this many at the front.
    pub fn truncate(&mut self, count: usize)
        ensures { self.new ≡ take count self.old }
    {
        self.items.truncate(count);
    }

    /// Keeps those elements that are also among these.
    pub fn keep_held(&mut self, holds: &Elems)
        ensures { self.new ≡ still_held self.old holds.now }
    {
        keep(&mut self.items, holds);
    }

    /// Puts the own elements of a packet after the last, or changes nothing.
    pub fn extend_by_own(&mut self, packet: &Packet) -> Result<(), AllocError>
        ensures ok { OnOk result (self.new ≡ self.old ++ own_of_packet packet.now) }
        ensures err { OnErr result (self.new ≡ self.old) }
    {
        let before = self.items.len();
        let segs = packet.segs();
        for i in 0..segs.len() {
            if self.push(segs[i].elem).is_err() {
                self.items.truncate(before);
                return Err(AllocError);
            }
        }
        Ok(())
    }

    /// Takes each own element of a packet in turn out of the list.
    pub fn take_own_out(&mut self, packet: &Packet)
        ensures { self.new ≡ minus self.old (own_of_packet packet.now) }
    {
        let segs = packet.segs();
        for i in 0..segs.len() {
            self.take_out(segs[i].elem);
        }
    }

    /// Puts the holds of a packet after the last, or changes nothing.
    pub fn extend_by_packet(&mut self, packet: &Packet) -> Result<(), AllocError>
        ensures ok { OnOk result (self.new ≡ self.old ++ holds_of_packet packet.now) }
        ensures err { OnErr result (self.new ≡ self.old) }
    {
        let before = self.items.len();
        let segs = packet.segs();
        for i in 0..segs.len() {
            if self.push_seg(segs[i]).is_err() {
                self.items.truncate(before);
                return Err(AllocError);
            }
        }
        Ok(())
    }

    /// Puts the holds of a segment after the last; without memory some of them.
    fn push_seg(&mut self, seg: Seg) -> Result<(), AllocError>
        ensures ok { OnOk result (self.new ≡ self.old ++ holds_of_seg seg) }
        ensures err { OnErr result (HasFront self.new self.old) }
    {
        if let Some(base) = seg.base {
            self.push(base)?;
        }
        self.push(seg.elem)
    }

    /// Takes each hold of a packet in turn out of the list.
    pub fn take_packet_out(&mut self, packet: &Packet)
        ensures { self.new ≡ minus self.old (holds_of_packet packet.now) }
    {
        let segs = packet.segs();
        for i in 0..segs.len() {
            self.take_seg_out(segs[i]);
        }
    }

    /// Takes the holds of a segment out of the list.
    #[tactic(auto, unfolding(crate::specs::Bags::minus))]
    fn take_seg_out(&mut self, seg: Seg)
        ensures { self.new ≡ minus self.old (holds_of_seg seg) }
    {
        match seg.base {
            None => self.take_out(seg.elem),
            Some(base) => {
                self.take_out(base);
                self.take_out(seg.elem);
            }
        }
    }

    /// Takes the first element that is this one out of the list.
    pub fn take_out(&mut self, element: u32)
        ensures { self.new ≡ without element self.old }
    {
        for i in 0..self.items.len() {
            if self.items[i] == element {
                self.items.remove(i);
                return;
            }
        }
    }

    /// Takes each of these in turn out of the list.
    pub fn take_all_out(&mut self, elements: &[u32])
        ensures { self.new ≡ minus self.old elements.now }
    {
        for element in elements {
            self.take_out(*element);
        }
    }
}
