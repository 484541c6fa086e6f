//! Laws of what stays.

ghost use Rattle.std.specs.Prelude.{◌≡◌, ◌↔◌, Contains};
ghost use Rattle.pool_statement.specs.declared.statement.Statement.{Statement};
ghost use Rattle.stays.specs.Stays.{IsUsedIn, stays_between, used_in};
ghost use Rattle.stays.specs.declared.used.Used.{Used};

/// A packet stays exactly where the newer statement lists it and the older one lists a packet with
/// the same segments, in a slot or on a desk: the same elements with the same bases, in one order.
pub fn a_packet_that_stays_is_in_both()
    ensures { (newer older : Statement) (packet : Used) →
        Contains (stays_between newer older) packet
        ↔ (Contains (used_in newer) packet × IsUsedIn older packet.parts) }
{}
