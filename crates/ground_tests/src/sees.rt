//! What a player sees of its seat.

use commons::packet::Packet;

/// What a player sees of its seat.
#[derive(Drop)]
pub enum Sees {
    /// What the seat knows, and what is in its slot.
    All,
    /// What the seat knew before it seized this desk, whose packet is in the slot.
    Seizure(u32),
    /// What the seat knew before it seized this desk, and the packet that it has taken out since.
    Out(u32, Packet),
}
