//! How long a packet is, and how its lengths change.

ghost use Rattle.std.specs.Prelude.{◌≡◌, ◌<◌, None, Some, length, false, IfSome, cond};
ghost use Rattle.commons.specs.Packets.{HasItsData, pkt_len as len_of};
ghost use Rattle.mbuf.specs.inside.Changes.{resized, not_resized};
ghost use Rattle.mbuf.specs.Lengths.{appended, prepended, adjusted, trimmed, grown_behind, grown_in_front, cut_in_front, cut_behind, with_seg};

pub use commons::change::Change;
use commons::packet::{Packet, Seg};
use commons::refusal::Refusal;

/// How many bytes of data a packet has.
pub(crate) fn pkt_len(packet: &Packet) -> u32
    ensures { result ≡ len_of packet.now }
{
    let mut len = 0;
    for seg in packet.segs() {
        len += u32::from(seg.data_len);
    }
    len
}

/// The segment with this many bytes more after its data, if its tailroom has them.
fn grow_behind(seg: Seg, len: u16) -> Option<Seg>
    requires { HasItsData seg }
    ensures seg { result ≡ grown_behind len seg }
    ensures data { IfSome result HasItsData }
{
    if len <= seg.buf_len - seg.data_off - seg.data_len {
        Some(Seg {
            data_len: seg.data_len + len,
            ..seg
        })
    } else {
        None
    }
}

/// The segment with this many bytes more in front of its data, if there are that many.
fn grow_in_front(seg: Seg, len: u16) -> Option<Seg>
    requires { HasItsData seg }
    ensures seg { result ≡ grown_in_front len seg }
    ensures data { IfSome result HasItsData }
{
    if len <= seg.data_off {
        Some(Seg {
            data_off: seg.data_off - len,
            data_len: seg.data_len + len,
            ..seg
        })
    } else {
        None
    }
}

/// The segment with this many bytes fewer at the front of its data, if it has that many.
fn cut_front(seg: Seg, len: u16) -> Option<Seg>
    requires { HasItsData seg }
    ensures seg { result ≡ cut_in_front len seg }
    ensures data { IfSome result HasItsData }
{
    if len <= seg.data_len {
        Some(Seg {
            data_off: seg.data_off + len,
            data_len: seg.data_len - len,
            ..seg
        })
    } else {
        None
    }
}

/// The segment with this many bytes fewer at the end of its data, if it has that many.
fn cut_end(seg: Seg, len: u16) -> Option<Seg>
    requires { HasItsData seg }
    ensures seg { result ≡ cut_behind len seg }
    ensures data { IfSome result HasItsData }
{
    if len <= seg.data_len {
        Some(Seg {
            data_len: seg.data_len - len,
            ..seg
        })
    } else {
        None
    }
}

/// Puts a segment in the place of the one at `index`, if there is one to put, and says whether.
fn replace(packet: &mut Packet, index: usize, seg: Option<Seg>) -> bool
    requires index { index < length packet.old }
    requires data { IfSome seg HasItsData }
    ensures replaced { cond result (Some packet.new) None ≡ with_seg index packet.old seg }
    ensures same { result ≡ false → packet.new ≡ packet.old }
{
    match seg {
        Some(seg) => {
            packet.set(index, seg);
            true
        }
        None => false,
    }
}

/// Appends this many bytes after the last segment's data, if its tailroom has them, and says so.
fn append(packet: &mut Packet, len: u16) -> bool
    ensures resized { cond result (Some packet.new) None ≡ appended len packet.old }
    ensures same { result ≡ false → packet.new ≡ packet.old }
{
    let last = packet.segs().len() - 1;
    let seg = packet.segs()[last];
    replace(packet, last, grow_behind(seg, len))
}

/// Puts this many bytes in front of the first segment's data, if there are that many, and says so.
fn prepend(packet: &mut Packet, len: u16) -> bool
    ensures resized { cond result (Some packet.new) None ≡ prepended len packet.old }
    ensures same { result ≡ false → packet.new ≡ packet.old }
{
    let seg = packet.segs()[0];
    replace(packet, 0, grow_in_front(seg, len))
}

/// Cuts this many bytes off the front of the first segment's data, if it has that many, and says
/// so.
fn adj(packet: &mut Packet, len: u16) -> bool
    ensures resized { cond result (Some packet.new) None ≡ adjusted len packet.old }
    ensures same { result ≡ false → packet.new ≡ packet.old }
{
    let seg = packet.segs()[0];
    replace(packet, 0, cut_front(seg, len))
}

/// Cuts this many bytes off the end of the last segment's data, if it has that many, and says so.
fn trim(packet: &mut Packet, len: u16) -> bool
    ensures resized { cond result (Some packet.new) None ≡ trimmed len packet.old }
    ensures same { result ≡ false → packet.new ≡ packet.old }
{
    let last = packet.segs().len() - 1;
    let seg = packet.segs()[last];
    replace(packet, last, cut_end(seg, len))
}

/// Changes a packet's lengths, if it has the room or the data, and says whether.
pub(crate) fn resize(packet: &mut Packet, change: Change) -> bool
    ensures resized { cond result (Some packet.new) None ≡ resized change packet.old }
    ensures same { result ≡ false → packet.new ≡ packet.old }
{
    match change {
        Change::Append(len) => append(packet, len),
        Change::Prepend(len) => prepend(packet, len),
        Change::Adj(len) => adj(packet, len),
        Change::Trim(len) => trim(packet, len),
    }
}

/// Why a change isn't made.
pub(crate) fn refusal(change: Change) -> Refusal
    ensures { result ≡ not_resized change }
{
    match change {
        Change::Append(_) | Change::Prepend(_) => Refusal::NoRoom,
        Change::Adj(_) | Change::Trim(_) => Refusal::TooShort,
    }
}
