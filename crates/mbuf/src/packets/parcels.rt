//! Packets that leave the table of their worker, or come into one, without a call on the shared
//! pool.
ghost use Rattle.std.specs.Prelude.{◌≡◌};
ghost use Rattle.commons.specs.Packets.{IsPacket};
ghost use Rattle.mbuf.specs.Parcels.{BringsIn, TakesOut};

use super::{Packets, Pid};
use commons::packet::{Packet, Seg};
use commons::refusal::Refusal;

impl Packets {
    /// Takes a packet out of its slot, which is free then: for who has its segments already, as
    /// `place` shows them. Nothing is asked of the shared pool: who has the packet now has to have
    /// all that it holds, or the pool loses that.
    ///
    /// Refused `NoSuchPacket` where no packet stands there. Nothing changes then.
    ///
    /// Our own: in DPDK an mbuf stands in no table, and any lcore that has its pointer passes it on.
    #[inline(always)]
    pub fn take_out(&mut self, p: Pid) -> Result<(), Refusal>
        ensures { TakesOut self.old p result self.new }
    {
        let Some(place) = self.slot(p) else {
            return Err(Refusal::NoSuchPacket);
        };
        self.free.give(place);
        Ok(())
    }

    /// Brings the packet of these segments in, whose holds the worker has. It stands in the lowest
    /// free slot, which is the answer. Nothing is asked of the shared pool.
    ///
    /// Refused `PacketsFull` where no slot is free. Nothing changes then.
    ///
    /// Our own, as `take_out` is.
    #[inline(always)]
    pub fn bring_in(&mut self, segs: &[Seg]) -> Result<Pid, Refusal>
        requires { IsPacket segs.now }
        ensures { BringsIn self.old segs.now result self.new }
    {
        let Some(place) = self.free.lowest() else {
            return Err(Refusal::PacketsFull);
        };
        rewrite(&mut self.packets[place], segs);
        self.free.take(place);
        Ok(place as Pid)
    }
}

/// Makes this the packet of these segments, in its place: what it has room for besides isn't moved.
#[inline(always)]
pub fn rewrite(packet: &mut Packet, segs: &[Seg])
    requires { IsPacket segs.now }
    ensures { packet.new ≡ segs.now }
{
    packet.restart(segs[0]);
    for k in 1..segs.len() {
        packet.push(segs[k]);
    }
}
