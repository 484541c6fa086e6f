//! The guests of a first pool: the bases of the packets of a second one.

ghost use Rattle.std.specs.Prelude.{◌≡◌, ◌≤◌, ◌+◌, ◌*◌, ◌++◌, IfOk, flat_map, length};
ghost use Rattle.book.specs.Books.{shares_in};
ghost use Rattle.commons.specs.Packets.{max_segs};
ghost use Rattle.pool_model.specs.Guests.{guests_by, guests_for};
ghost use Rattle.snapshot.specs.Snapshots.{most_guests};

use crate::share::Share;
use commons::packet::Seg;
use commons::seq::Seq;
use mbuf::packets::{Packets, SLOTS};
use pool_statement::guest::Guest;
use std::alloc::{AllocError, Global};

/// The guests of the workers of these shares, by worker and slot: for each place no more than the
/// packets of a table may have bases.
pub(crate) fn guests(alloc: Global, places: &[Option<Share>]) -> Result<Seq<Guest>, AllocError>
    ensures same { IfOk result (λ s. s ≡ flat_map guests_by (shares_in places.now)) }
    ensures few { IfOk result (λ s. length s ≤ length places.now * most_guests) }
{
    let mut guests = Vec::new(alloc);
    for place in places {
        if let Some(share) = place {
            add_guests(&mut guests, share.packets())?;
        }
    }
    Ok(Seq::new(guests))
}

/// Adds a worker's guests by slot.
fn add_guests(guests: &mut Vec<Guest>, packets: &Packets) -> Result<(), AllocError>
    ensures more { IfOk result (λ _. guests.new.items ≡ guests.old.items ++ guests_by packets.now) }
    ensures few { IfOk result (λ _. length guests.new.items ≤ length guests.old.items + most_guests) }
{
    packets.has_slots();
    let worker = packets.worker();
    for number in 0..SLOTS as u32 {
        if let Some(packet) = packets.place(number) {
            add_bases(guests, worker, packet.segs())?;
        }
    }
    Ok(())
}

/// Adds a worker's guests for a packet.
fn add_bases(guests: &mut Vec<Guest>, worker: u32, segs: &[Seg]) -> Result<(), AllocError>
    requires { length segs.now ≤ max_segs }
    ensures more { IfOk result (λ _. guests.new.items ≡ guests.old.items ++ guests_for worker segs.now) }
    ensures few { IfOk result (λ _. length guests.new.items ≤ length guests.old.items + max_segs) }
{
    for seg in segs {
        if let Some(base) = seg.base {
            guests.push(Guest { worker, elem: base })?;
        }
    }
    Ok(())
}
