//! What stays when elements pass from hand to hand. Each law is a function that does nothing, and
//! its contract is the law.

ghost use Rattle.step_core.specs.Passing.{HandsMayPass, PassingKeepsLaw, PassingKeepsWorld, PassingKeepsHeaders, PassingMovesThem, OthersDoTheSame};

/// Elements of a worker's hand, none of them of its chain, may pass to the hand of any other worker
/// with a part: there is such a world, with the same words, and it obeys each law of the machine
/// that the one before obeys. In its table these elements have gone from hand to hand, and each
/// other one is where it was.
///
/// So no law depends on whose hand an element is in. DPDK's programs put by one lcore what another
/// got (rte_mempool.h, `rte_mempool_put_bulk`, DPDK 21.11); this says of the machine that they may.
/// Of the calls of a running pool it says nothing: what they ask is their own contract's.
pub fn hands_may_pass()
    ensures some { HandsMayPass }
    ensures law { PassingKeepsLaw }
    ensures world { PassingKeepsWorld }
    ensures headers { PassingKeepsHeaders }
    ensures places { PassingMovesThem }
{}

/// No third worker sees that elements passed: each step of it is played or refused as before, with
/// the same outcome and the same event, and the same elements have passed afterwards.
pub fn others_do_the_same()
    ensures { OthersDoTheSame }
{}
