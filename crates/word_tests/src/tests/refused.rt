//! Clones of 32 segments that are refused at each of their gets, and at each of their raises.

use super::{assert_same, same};
use commons::refusal::Refusal;
use mbuf::acts::Reply;
use script_rows::parts::{Field, Part, written};
use script_text::parse;
use std::alloc::Global;
use std::process::Abort;
use std::test::Fail;

/// 32 packets.
const PACKETS: &[Part] = &[
    Part::Text("bulk"),
    Part::Each(32, &[Field(" p", 0, 1)], ""),
    Part::Text("\n"),
];

/// The others become segments of the first.
const CHAINS: &[Part] = &[Part::Each(31, &[Field("chain p0 p", 1, 1)], "\n")];

/// How many of these replies are refusals, and how many of those are for this cause.
fn refusals(replies: &[(u32, Reply)], cause: Refusal) -> (u32, u32) {
    let mut all = 0u32;
    let mut such = 0u32;
    for (_, reply) in replies {
        if let Reply::Refused(told) = reply {
            all = all.saturating_add(1);
            if *told == cause {
                such = such.saturating_add(1);
            }
        }
    }
    (all, such)
}

/// Plays a script in which a clone is refused for this cause, at this number, and nothing else is,
/// and all packets are freed.
fn assert_refused<R: Abort>(
    rt: &R,
    alloc: Global,
    text: &str,
    cause: Refusal,
    number: u32,
) -> Result<(), Fail> {
    let name = format!(in alloc; "{cause:?} at {number}")?;
    let script = parse(alloc, text.as_bytes())?;
    let (replies, statement) = assert_same(rt, alloc, &script, name.as_str())?;
    let told = refusals(replies.as_slice(), cause);
    let wanted = ((1, 1), script.pools.first.population);
    same(rt, &(told, statement.available), &wanted, name.as_str());
    Ok(())
}

/// A clone of 32 segments is refused where this many elements are left.
#[test]
fn a_clone_is_refused_at_each_of_its_gets(rt: HostRuntime) -> Result<(), Fail> {
    let alloc = rt.alloc();
    let packets = written(alloc, PACKETS)?;
    let chains = written(alloc, CHAINS)?;
    for left in 0..32u32 {
        let text = format!(in alloc;
            "pool {}\n{packets}{chains}clone p0 c\nfree p0\n",
            left + 32
        )?;
        assert_refused(&rt, alloc, text.as_str(), Refusal::NoEntries, left)?;
    }
    Ok(())
}

/// A clone of 32 segments is refused where the count of the element of one of them is at its limit.
#[test]
fn a_clone_is_refused_at_each_of_its_raises(rt: HostRuntime) -> Result<(), Fail> {
    let alloc = rt.alloc();
    let packets = written(alloc, PACKETS)?;
    let chains = written(alloc, CHAINS)?;
    for spent in 0..32u32 {
        let text = format!(in alloc;
            "pool 65 refs 2\n{packets}alloc x\nattach x p{spent}\n{chains}clone p0 c\nfree p0\n\
            free x\n"
        )?;
        assert_refused(&rt, alloc, text.as_str(), Refusal::RefSpent, spent)?;
    }
    Ok(())
}
