//! What a worker of two pools hands in when these end. It can't be copied, so it is in one book at
//! most.

ghost use Rattle.std.specs.Prelude.{◌≡◌, length};
ghost use Rattle.mbuf.specs.Members.{slots};
ghost use Rattle.mbuf.specs.Twins.{TwinMember};

use crate::share::{Share, hand_in};
use mbuf::twin::Twin;
use std::marker::Model;

/// What a worker of two pools has when these end: its share of the first, and of the second its
/// cache and its foreign clones, whose own elements are of the second pool and whose bases are of
/// the first. It can't be dropped: `lose` ends it.
pub struct TwinShare {
    first: Share,
    second: Share,
}

impl Model for TwinShare {
    ghost use Rattle.mbuf.specs.Twins.{TwinMember};

    ghost Value = { TwinMember };

    ghost use Rattle.book.specs.inside.TwinKept.{member_of, IsOfOne};

    ghost view = { member_of };

    ghost invariant = { IsOfOne };
}

/// Ends a worker of two pools, and gives all that it has.
pub fn hand_in_twin(twin: Twin) -> TwinShare
    ensures { result ≡ twin }
{
    let (first, second) = twin.into_parts();
    TwinShare::of(hand_in(first), hand_in(second))
}

/// Ends these shares and gives nothing back.
pub fn lose_all_twins(mut shares: Vec<TwinShare>) {
    while let Some(share) = shares.pop() {
        share.lose();
    }
    shares.destroy_empty();
}

impl TwinShare {
    /// The share of a worker, by its parts in both pools.
    pub fn of(first: Share, second: Share) -> TwinShare
        requires { second.number ≡ first.number }
        ensures { result ≡ record { first = first; second = second } }
    {
        TwinShare { first, second }
    }

    /// Gives both parts.
    pub fn into_parts(self) -> (Share, Share)
        ensures first { result.0 ≡ self.first }
        ensures second { result.1 ≡ self.second }
        ensures same { self.second.number ≡ self.first.number }
    {
        let TwinShare { first, second } = self;
        (first, second)
    }

    /// Ends the share and gives nothing back.
    pub fn lose(self) {
        let TwinShare { first, second } = self;
        first.lose();
        second.lose();
    }

    /// The worker's number, from 1.
    pub fn worker(&self) -> u32
        ensures first { result ≡ self.now.first.number }
        ensures second { result ≡ self.now.second.number }
    {
        self.first.worker()
    }
}
