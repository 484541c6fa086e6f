//! Packets of one worker over any shared pool: mbufs with lengths, chains, counts and clones, which
//! pass to other workers over desks; and a worker of two pools, whose clones are of the second. A
//! hold is one count of an mbuf's `refcnt`, a header an element that is a packet's own mbuf, and a
//! base the direct mbuf whose buffer an indirect segment uses.
#![tactic(auto)]

pub mod acts;
mod clones;
mod free_slots;
pub mod freed;
pub mod laws;
pub mod lengths;
pub mod packets;
mod steps;
pub mod twin;
