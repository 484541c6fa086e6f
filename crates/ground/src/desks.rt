//! The six steps of the desks. Each is one atomic operation on one desk's word, or an exchange of
//! what is in its slot, by one seat, whose view changes as the machine's step says, whatever the
//! other seats do. The slot of a desk is with the seat that works at the desk, and so nobody else
//! reads or writes it then.

ghost use Rattle.std.specs.Prelude.{◌≡◌, ◌≢◌, ◌<◌, [], ◌∷◌, ℕ, List, Some, None, IfOk, IfErr, MatchResult};
ghost use Rattle.commons.specs.Bag.{bag};
ghost use Rattle.commons.specs.Packets.{holds_of_packet};
ghost use Rattle.commons.specs.declared.packet.Seg.{Seg};
ghost use Rattle.step_core.specs.declared.step.Step.TheVariants.{Hold, PutIn, Open, Seize, TakeOut, Clear};
ghost use Rattle.step_core.specs.declared.step.Outcome.TheVariants.{Won, Lost, Done, Found};
ghost use Rattle.step_core.specs.declared.view.Phase.TheVariants.{ToFill, Seized, TakenOut};
ghost use Rattle.step_core.specs.Views.{phase_at};
ghost use Rattle.ground.specs.Seats.{IsOf, Steps, view_with_slot, KnowsThere, KnowsEmpty, KnowsFull};
ghost use Rattle.ground.specs.DeskSeats.{MayOpen, Holds, Fills, Opens, Seizes, Empties, Clears};
ghost use Rattle.ground.specs.Layout.{desk_word};

use crate::plays::{ClearsDesk, HoldsDesk, OpensDesk, SeizesDesk};
use crate::pool::Ground;
use crate::seat::GroundSeat;
use crate::stack::LINKS;
use commons::packet::Packet;

impl Ground {
    /// Where the word of a desk stands: after the counts.
    fn desk_word(&self, desk: u32) -> usize
        requires { desk < self.now.limits.desks }
        ensures { result ≡ desk_word self.now.limits.population desk }
    {
        LINKS + 2 * self.limits.population as usize + desk as usize
    }

    /// Begins to fill a desk, where its word is 0. Else answers what it is, and nothing has
    /// changed. A seat that knows what lies on the desks knew this before.
    pub fn hold(&self, seat: &mut GroundSeat, desk: u32) -> Result<(), u64>
        requires of { IsOf self.now seat.old }
        requires desk { desk < self.now.limits.desks }
        requires idle { seat.old.known.view.work ≡ None }
        ensures won { IfOk result (λ _. Holds desk seat.old seat.new) }
        ensures lost { IfErr result (λ found. (found ≢ 0) × Steps (Hold desk) (Lost found) seat.old seat.new) }
        ensures known { MatchResult result (λ _. KnowsEmpty desk seat.old.known) (λ _. KnowsFull desk seat.old.known) }
    {
        let word = self.desk_word(desk);
        let found = self
            .table
            .shared
            .compare_exchange::<HoldsDesk>(&mut seat.seat, word, 0, 1);
        if found == 0 { Ok(()) } else { Err(found) }
    }

    /// Puts a packet into the slot of the desk that the seat fills.
    pub fn put_in(&self, seat: &mut GroundSeat, desk: u32, packet: Packet)
        requires of { IsOf self.now seat.old }
        requires phase { phase_at desk (view_with_slot seat.old).work ≡ Some ToFill }
        requires range { (i : ℕ) → 0 < bag (holds_of_packet packet) i → i < self.now.limits.population }
        ensures { Fills desk packet seat.old seat.new }
    {
        seat.at_desk();
        // What is put in is a packet.
        let _ = packet.segs();
        let before = self
            .table
            .shared
            .exchange(&mut seat.seat, desk as usize, Some(packet));
        drop(before);
    }

    /// Makes the desk that the seat has filled full: stores 2 in its word. The packet's holds and
    /// headers go with it.
    pub fn open(&self, seat: &mut GroundSeat, desk: u32)
        requires of { IsOf self.now seat.old }
        requires desk { desk < self.now.limits.desks }
        requires may { MayOpen desk (view_with_slot seat.old) }
        ensures { Opens desk seat.old seat.new }
    {
        seat.at_desk();
        let word = self.desk_word(desk);
        self.table
            .shared
            .store::<OpensDesk>(&mut seat.seat, word, 2);
    }

    /// Begins to empty a desk, where its word is 2: its packet's holds and headers are the seat's.
    /// Else answers what it is, and nothing has changed. A seat that knows what lies on the desks
    /// knew this before, and the packet.
    pub fn seize(&self, seat: &mut GroundSeat, desk: u32) -> Result<(), u64>
        requires of { IsOf self.now seat.old }
        requires desk { desk < self.now.limits.desks }
        requires idle { seat.old.known.view.work ≡ None }
        ensures won { IfOk result (λ _. (p : List Seg) × Seizes desk p seat.old seat.new × KnowsThere desk p seat.old.known) }
        ensures lost { IfErr result (λ found. (found ≢ 2) × Steps (Seize desk) (Lost found) seat.old seat.new) }
        ensures known { IfErr result (λ _. KnowsEmpty desk seat.old.known) }
    {
        let word = self.desk_word(desk);
        let found = self
            .table
            .shared
            .compare_exchange::<SeizesDesk>(&mut seat.seat, word, 2, 3);
        if found == 2 { Ok(()) } else { Err(found) }
    }

    /// Takes the packet out of the slot of the desk that the seat has seized.
    pub fn take_out(&self, seat: &mut GroundSeat, desk: u32) -> Packet
        requires of { IsOf self.now seat.old }
        requires phase { (p : List Seg) × (phase_at desk (view_with_slot seat.old).work ≡ Some (Seized p)) }
        ensures { Empties desk result seat.old seat.new }
    {
        seat.at_desk();
        match self
            .table
            .shared
            .exchange(&mut seat.seat, desk as usize, None)
        {
            Some(packet) => packet,
            None => unreachable!(),
        }
    }

    /// Makes the desk that the seat has emptied empty: stores 0 in its word.
    pub fn clear(&self, seat: &mut GroundSeat, desk: u32)
        requires of { IsOf self.now seat.old }
        requires desk { desk < self.now.limits.desks }
        requires phase { phase_at desk (view_with_slot seat.old).work ≡ Some TakenOut }
        ensures { Clears desk seat.old seat.new }
    {
        seat.at_desk();
        let word = self.desk_word(desk);
        self.table
            .shared
            .store::<ClearsDesk>(&mut seat.seat, word, 0);
    }
}
