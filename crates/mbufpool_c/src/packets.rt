//! Packets for C: each export is one act of a worker.

ghost use Rattle.std.specs.Prelude.{◌≡◌, ◌≤◌, None, length, map};
ghost use Rattle.commons.specs.Refusals.{number_of};
ghost use Rattle.commons.specs.declared.refusal.Refusal.TheVariants.{StrangerShare};
ghost use Rattle.mbuf.specs.Acts.{HasRoom, as_reply, new_packet};
ghost use Rattle.mbufpool_c.specs.Segments.{ShowsSegment, segment_of as segment_in};
ghost use Rattle.mbufpool_c.specs.Statuses.{ActsAs, AreTold, DoesAs, GivesNumber, MakesBulk, MakesNew, TellsBulk, TellsNumber, TellsNew, WorkerRemains, new_at, status_of_reply as status_of_act, status_of_result};

use crate::worker_handle::WorkerHandle;
use crate::workers::OwnWorker;
use commons::packet::Seg;
use commons::refusal::Refusal;
use mbuf::acts;
use mbuf::acts::{Act, Answer, Reply};
use mbuf::packets::{Pid, SLOTS};
use std::alloc::Global;

/// How many packets a usual bulk has at most: for one of these few places are filled with zeros.
const BURST: usize = 32;

/// A new packet: the label of its slot, by which C has it, and the element of its first segment.
#[repr(C)]
#[derive(Clone, Copy)]
pub struct NewPacket {
    pub slot: u32,
    pub element: u32,
}

/// A segment of a packet: its own element, the one whose buffer has its data, which is another
/// where the segment is a clone's, and in bytes where the data begins there, how long it is, and
/// how long the buffer is.
#[repr(C)]
#[derive(Clone, Copy)]
pub struct Segment {
    pub element: u32,
    pub buffer: u32,
    pub off: u16,
    pub len: u16,
    pub buf: u16,
}

/// The status of an answer: 0, or the number of a refusal.
#[inline(always)]
fn status_of<const ROOM: usize>(answer: &Answer<ROOM>) -> u32
    ensures { result ≡ status_of_act (as_reply answer.now) }
{
    match answer {
        Answer::Refused(cause) => cause.number(),
        _ => 0,
    }
}

/// The status where a handle has no worker.
#[inline(always)]
fn stranger() -> u32
    ensures { result ≡ number_of StrangerShare }
{
    Refusal::StrangerShare.number()
}

/// Lets a worker do this.
#[inline(always)]
fn deed(own: &mut OwnWorker, act: Act) -> u32
    requires { HasRoom 0 act }
    ensures { DoesAs act own.old result own.new }
{
    let answer = own.act::<0>(act);
    status_of(&answer)
}

/// Lets the worker of a handle do this.
#[inline(always)]
fn act(alloc: Global, worker: &mut WorkerHandle, act: Act) -> u32
    requires { HasRoom 0 act }
    ensures { ActsAs act worker.old.value result worker.new.value }
{
    match worker.take(alloc) {
        None => stranger(),
        Some(mut own) => {
            let status = deed(&mut own, act);
            worker.put_back(own);
            status
        }
    }
}

/// Lets a worker do this, and gives C the number that is answered, where it is a slot by its label.
#[inline(always)]
fn give(own: &mut OwnWorker, act: Act, out: &mut u32) -> u32
    requires { HasRoom 0 act }
    ensures { GivesNumber act own.old result out.old out.new own.new }
{
    let answer = own.act::<0>(act);
    match answer {
        Answer::Len(number) => *out = number,
        Answer::Segs(number) => *out = number,
        Answer::Count(number) => *out = number,
        Answer::Taken(slot, _, _) => *out = own.label(slot),
        _ => {}
    }
    status_of(&answer)
}

/// Lets the worker of a handle do this, and gives C the number that is answered.
#[inline(always)]
fn tell(alloc: Global, worker: &mut WorkerHandle, what: Act, out: &mut u32) -> u32
    requires { HasRoom 0 what }
    ensures { TellsNumber what worker.old.value result out.old out.new worker.new.value }
{
    match worker.take(alloc) {
        None => stranger(),
        Some(mut own) => {
            let status = give(&mut own, what, out);
            worker.put_back(own);
            status
        }
    }
}

/// Gives C the new packet in the slot that is answered, and the status.
#[inline(always)]
fn tell_new(own: &OwnWorker, answer: Result<Pid, Refusal>, out: &mut NewPacket) -> u32
    ensures status { result ≡ status_of_result answer }
    ensures told { out.new ≡ new_at answer own.now.labels own.now.worker.member.table out.old }
{
    match answer {
        Ok(slot) => {
            *out = NewPacket {
                slot: own.label(slot),
                element: own.first_element(slot),
            };
            0
        }
        Err(cause) => cause.number(),
    }
}

/// Lets a worker make a packet, and gives it to C.
#[inline(always)]
fn make(own: &mut OwnWorker, out: &mut NewPacket) -> u32
    ensures { MakesNew Act.Alloc own.old result out.old out.new own.new }
{
    let answer = own.alloc();
    tell_new(own, answer, out)
}

/// Lets a worker make a clone, and gives it to C.
#[inline(always)]
fn make_clone(own: &mut OwnWorker, number: u32, out: &mut NewPacket) -> u32
    ensures { MakesNew (Act.ClonePacket number) own.old result out.old out.new own.new }
{
    let answer = own.clone_packet(number);
    tell_new(own, answer, out)
}

/// Lets a worker free a packet.
#[inline(always)]
fn free(own: &mut OwnWorker, number: u32) -> u32
    ensures { DoesAs (Act.Free number) own.old result own.new }
{
    match own.free(number) {
        Ok(_) => 0,
        Err(cause) => cause.number(),
    }
}

/// Makes a packet of one element.
#[unsafe(no_mangle)]
pub extern "C" fn mbufpool_worker_alloc(
    alloc: Global,
    worker: &mut WorkerHandle,
    out: &mut NewPacket,
) -> u32
    ensures { TellsNew Act.Alloc worker.old.value result out.old out.new worker.new.value }
{
    match worker.take(alloc) {
        None => stranger(),
        Some(mut own) => {
            let status = make(&mut own, out);
            worker.put_back(own);
            status
        }
    }
}

/// Tells of the packets of a bulk, each in its place.
fn tell_each(own: &OwnWorker, made: &[acts::NewPacket], out: &mut [NewPacket])
    ensures { AreTold made.now own.now.labels out.new }
{
    for k in 0..out.len() {
        if k < made.len() {
            out[k] = NewPacket {
                slot: own.label(made[k].slot),
                element: made[k].elem,
            };
        }
    }
}

/// Lets a worker make as many packets as `out` has places by the act, which has a place for each,
/// and gives each to C.
#[inline(never)]
fn make_by_act(own: &mut OwnWorker, out: &mut [NewPacket]) -> u32
    ensures { MakesBulk (Act.AllocBulk (length out.old)) own.old result out.old out.new own.new }
{
    let answer: Reply = own.act(Act::AllocBulk(out.len()));
    match &answer {
        Answer::Refused(cause) => cause.number(),
        Answer::Bulk(made) => {
            tell_each(own, made.as_slice(), out);
            0
        }
        _ => 0,
    }
}

/// Makes as many packets as `out` has places, by the act.
#[inline(never)]
fn bulk_by_act(alloc: Global, worker: &mut WorkerHandle, out: &mut [NewPacket]) -> u32
    ensures { TellsBulk (Act.AllocBulk (length out.old)) worker.old.value result out.old out.new worker.new.value }
{
    match worker.take(alloc) {
        None => stranger(),
        Some(mut own) => {
            let status = make_by_act(&mut own, out);
            worker.put_back(own);
            status
        }
    }
}

/// Tells of the packets in these slots, each in its place.
#[inline(always)]
fn tell_slots(own: &OwnWorker, slots: &[Pid], out: &mut [NewPacket])
    ensures { AreTold (map (new_packet own.now.worker.member.table) slots.now) own.now.labels out.new }
{
    for k in 0..out.len() {
        if k < slots.len() {
            out[k] = NewPacket {
                slot: own.label(slots[k]),
                element: own.first_element(slots[k]),
            };
        }
    }
}

/// Lets a worker make as many packets as `slots` has places, and gives each to C.
#[inline(always)]
fn make_each(own: &mut OwnWorker, slots: &mut [Pid], out: &mut [NewPacket]) -> u32
    ensures { MakesBulk (Act.AllocBulk (length slots.old)) own.old result out.old out.new own.new }
{
    match own.alloc_bulk(slots) {
        Ok(()) => {
            tell_slots(own, slots, out);
            0
        }
        Err(cause) => cause.number(),
    }
}

/// Lets a worker make as many packets as `out` has places, `N` at most, and gives each to C.
#[inline(always)]
fn make_in<const N: usize>(own: &mut OwnWorker, out: &mut [NewPacket]) -> u32
    requires few { length out.old ≤ N }
    requires size { N ≤ SLOTS }
    ensures { MakesBulk (Act.AllocBulk (length out.old)) own.old result out.old out.new own.new }
{
    let mut slots = [0; N];
    make_each(own, &mut slots[..out.len()], out)
}

/// Makes as many packets as `out` has places, `N` at most.
#[inline(never)]
fn bulk_in<const N: usize>(alloc: Global, worker: &mut WorkerHandle, out: &mut [NewPacket]) -> u32
    requires few { length out.old ≤ N }
    requires size { N ≤ SLOTS }
    ensures { TellsBulk (Act.AllocBulk (length out.old)) worker.old.value result out.old out.new worker.new.value }
{
    match worker.take(alloc) {
        None => stranger(),
        Some(mut own) => {
            let status = make_in::<N>(&mut own, out);
            worker.put_back(own);
            status
        }
    }
}

/// Makes as many packets of one element as `out` has places, all or none, and gives C each.
#[unsafe(no_mangle)]
pub extern "C" fn mbufpool_worker_alloc_bulk(
    alloc: Global,
    worker: &mut WorkerHandle,
    out: &mut [NewPacket],
) -> u32
    ensures { TellsBulk (Act.AllocBulk (length out.old)) worker.old.value result out.old out.new worker.new.value }
{
    if out.len() <= BURST {
        return bulk_in::<BURST>(alloc, worker, out);
    }
    if out.len() <= SLOTS {
        return bulk_in::<SLOTS>(alloc, worker, out);
    }
    bulk_by_act(alloc, worker, out)
}

/// Frees a packet.
#[unsafe(no_mangle)]
pub extern "C" fn mbufpool_worker_free(alloc: Global, worker: &mut WorkerHandle, slot: u32) -> u32
    ensures { ActsAs (Act.Free slot) worker.old.value result worker.new.value }
{
    match worker.take(alloc) {
        None => stranger(),
        Some(mut own) => {
            let status = free(&mut own, slot);
            worker.put_back(own);
            status
        }
    }
}

/// Adds this many bytes after a packet's data, and gives its length.
#[unsafe(no_mangle)]
pub extern "C" fn mbufpool_worker_append(
    alloc: Global,
    worker: &mut WorkerHandle,
    slot: u32,
    len: u16,
    out: &mut u32,
) -> u32
    ensures { TellsNumber (Act.Append slot len) worker.old.value result out.old out.new worker.new.value }
{
    tell(alloc, worker, Act::Append(slot, len), out)
}

/// Adds this many bytes in front of a packet's data, and gives its length.
#[unsafe(no_mangle)]
pub extern "C" fn mbufpool_worker_prepend(
    alloc: Global,
    worker: &mut WorkerHandle,
    slot: u32,
    len: u16,
    out: &mut u32,
) -> u32
    ensures { TellsNumber (Act.Prepend slot len) worker.old.value result out.old out.new worker.new.value }
{
    tell(alloc, worker, Act::Prepend(slot, len), out)
}

/// Takes this many bytes off the front of a packet's data, and gives its length.
#[unsafe(no_mangle)]
pub extern "C" fn mbufpool_worker_adj(
    alloc: Global,
    worker: &mut WorkerHandle,
    slot: u32,
    len: u16,
    out: &mut u32,
) -> u32
    ensures { TellsNumber (Act.Adj slot len) worker.old.value result out.old out.new worker.new.value }
{
    tell(alloc, worker, Act::Adj(slot, len), out)
}

/// Takes this many bytes off the end of a packet's data, and gives its length.
#[unsafe(no_mangle)]
pub extern "C" fn mbufpool_worker_trim(
    alloc: Global,
    worker: &mut WorkerHandle,
    slot: u32,
    len: u16,
    out: &mut u32,
) -> u32
    ensures { TellsNumber (Act.Trim slot len) worker.old.value result out.old out.new worker.new.value }
{
    tell(alloc, worker, Act::Trim(slot, len), out)
}

/// Puts the segments of a packet after those of another.
#[unsafe(no_mangle)]
pub extern "C" fn mbufpool_worker_chain(
    alloc: Global,
    worker: &mut WorkerHandle,
    head: u32,
    tail: u32,
) -> u32
    ensures { ActsAs (Act.Chain head tail) worker.old.value result worker.new.value }
{
    act(alloc, worker, Act::Chain(head, tail))
}

/// Lets a packet use the buffer of another.
#[unsafe(no_mangle)]
pub extern "C" fn mbufpool_worker_attach(
    alloc: Global,
    worker: &mut WorkerHandle,
    slot: u32,
    target: u32,
) -> u32
    ensures { ActsAs (Act.Attach slot target) worker.old.value result worker.new.value }
{
    act(alloc, worker, Act::Attach(slot, target))
}

/// Gives a packet its own buffer back.
#[unsafe(no_mangle)]
pub extern "C" fn mbufpool_worker_detach(alloc: Global, worker: &mut WorkerHandle, slot: u32) -> u32
    ensures { ActsAs (Act.Detach slot) worker.old.value result worker.new.value }
{
    act(alloc, worker, Act::Detach(slot))
}

/// Makes a clone of a packet.
#[unsafe(no_mangle)]
pub extern "C" fn mbufpool_worker_clone(
    alloc: Global,
    worker: &mut WorkerHandle,
    slot: u32,
    out: &mut NewPacket,
) -> u32
    ensures { TellsNew (Act.ClonePacket slot) worker.old.value result out.old out.new worker.new.value }
{
    match worker.take(alloc) {
        None => stranger(),
        Some(mut own) => {
            let status = make_clone(&mut own, slot, out);
            worker.put_back(own);
            status
        }
    }
}

/// Leaves a packet on a desk.
#[unsafe(no_mangle)]
pub extern "C" fn mbufpool_worker_offer(
    alloc: Global,
    worker: &mut WorkerHandle,
    slot: u32,
    desk: u32,
) -> u32
    ensures { ActsAs (Act.Offer slot desk) worker.old.value result worker.new.value }
{
    act(alloc, worker, Act::Offer(slot, desk))
}

/// Takes the packet off a desk, and gives its slot.
#[unsafe(no_mangle)]
pub extern "C" fn mbufpool_worker_take(
    alloc: Global,
    worker: &mut WorkerHandle,
    desk: u32,
    out: &mut u32,
) -> u32
    ensures { TellsNumber (Act.Take desk) worker.old.value result out.old out.new worker.new.value }
{
    tell(alloc, worker, Act::Take(desk), out)
}

/// Tells the reference count of a packet's first segment's element.
#[unsafe(no_mangle)]
pub extern "C" fn mbufpool_worker_refcnt(
    alloc: Global,
    worker: &mut WorkerHandle,
    slot: u32,
    out: &mut u32,
) -> u32
    ensures { TellsNumber (Act.CountOf slot) worker.old.value result out.old out.new worker.new.value }
{
    tell(alloc, worker, Act::CountOf(slot), out)
}

/// Tells how many bytes of data a packet has.
#[unsafe(no_mangle)]
pub extern "C" fn mbufpool_worker_pkt_len(
    alloc: Global,
    worker: &mut WorkerHandle,
    slot: u32,
    out: &mut u32,
) -> u32
    ensures { TellsNumber (Act.PktLen slot) worker.old.value result out.old out.new worker.new.value }
{
    tell(alloc, worker, Act::PktLen(slot), out)
}

/// Tells how many segments a packet has.
#[unsafe(no_mangle)]
pub extern "C" fn mbufpool_worker_nb_segs(
    alloc: Global,
    worker: &mut WorkerHandle,
    slot: u32,
    out: &mut u32,
) -> u32
    ensures { TellsNumber (Act.NbSegs slot) worker.old.value result out.old out.new worker.new.value }
{
    tell(alloc, worker, Act::NbSegs(slot), out)
}

/// Puts the worker's whole cache onto the common stack.
#[unsafe(no_mangle)]
pub extern "C" fn mbufpool_worker_flush(alloc: Global, worker: &mut WorkerHandle) -> u32
    ensures { ActsAs Act.Flush worker.old.value result worker.new.value }
{
    act(alloc, worker, Act::Flush)
}

/// How many changes of the pool's stack are left until an act that needs one is refused `HeadSpent`:
/// what a cache can't serve takes one. Others may take some meanwhile. 0 where the handle has no
/// worker.
#[unsafe(no_mangle)]
pub extern "C" fn mbufpool_worker_changes_left(alloc: Global, worker: &mut WorkerHandle) -> u64
    ensures { WorkerRemains worker.old.value result worker.new.value }
{
    match worker.take(alloc) {
        None => 0,
        Some(mut own) => {
            let left = own.changes_left();
            worker.put_back(own);
            left
        }
    }
}

/// Ends a worker: the handle has none then. The pool is freed with its last worker.
#[unsafe(no_mangle)]
pub extern "C" fn mbufpool_worker_end(alloc: Global, worker: &mut WorkerHandle)
    ensures { worker.new.value ≡ None }
{
    drop(worker.take(alloc));
}

/// A segment as C sees it.
fn segment_of(seg: Seg) -> Segment
    ensures { result ≡ segment_in seg }
{
    let buffer = match seg.base {
        None => seg.elem,
        Some(base) => base,
    };
    Segment {
        element: seg.elem,
        buffer,
        off: seg.data_off,
        len: seg.data_len,
        buf: seg.buf_len,
    }
}

/// Tells of the segment at this place of a packet.
#[unsafe(no_mangle)]
pub extern "C" fn mbufpool_worker_segment(
    alloc: Global,
    worker: &mut WorkerHandle,
    slot: u32,
    index: u32,
    out: &mut Segment,
) -> u32
    ensures kept { worker.new.value ≡ worker.old.value }
    ensures told { ShowsSegment worker.old.value slot index result out.old out.new }
{
    match worker.take(alloc) {
        None => stranger(),
        Some(own) => {
            let answer = own.seg(slot, index);
            worker.put_back(own);
            match answer {
                Ok(seg) => {
                    *out = segment_of(seg);
                    0
                }
                Err(cause) => cause.number(),
            }
        }
    }
}
