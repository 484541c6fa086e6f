//! What a worker hands in when its pool ends. It can't be copied, so it is in one book at most.

ghost use Rattle.std.specs.Prelude.{◌≡◌, length};
ghost use Rattle.mbuf.specs.Members.{slots};

use mbuf::packets::Packets;
use std::marker::Model;

/// What a worker has when its pool ends: its number, its cache and its packets. It can't be
/// dropped: `lose` ends it.
pub struct Share {
    packets: Packets,
}

impl Model for Share {
    ghost use Rattle.mbuf.specs.Members.{Member};

    ghost Value = { Member };

    ghost view = { λ s. s.packets };
}

/// Ends a worker, and gives all that it has.
pub fn hand_in(packets: Packets) -> Share
    ensures { result ≡ packets }
{
    Share { packets }
}

impl Share {
    /// Ends the share and gives nothing back.
    pub fn lose(self) {
        let Share { packets } = self;
        packets.lose();
    }

    /// The worker's number, from 1.
    pub fn worker(&self) -> u32
        ensures { result ≡ self.now.number }
    {
        self.packets.worker()
    }

    /// A law of each share: its table has 256 slots. It does nothing.
    pub fn has_slots(&self)
        ensures { length self.now.table ≡ slots }
    {
        self.packets.has_slots();
    }

    /// The worker's cache and its packets.
    pub fn packets(&self) -> &Packets
        ensures { result.now ≡ self.now }
    {
        &self.packets
    }
}

/// Ends these shares and gives nothing back.
pub fn lose_all(mut shares: Vec<Share>) {
    while let Some(share) = shares.pop() {
        share.lose();
    }
    shares.destroy_empty();
}
