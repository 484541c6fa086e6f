//! How two pools are settled with the shares of their workers, and what is refused.

use super::settling::{ONCE, TWICE, closed_at_last, lose_one, play};
use super::{DEFAULTS, assert_given, same};
use commons::closed::Closed;
use commons::limits::Limits;
use commons::refusal::Refusal;
use mbuf::acts::Act;
use pool_statement::settled::Settled;
use script::{statement_json, statement_text};
use share_book::site_pool::SitePool;
use share_book::{
    Fault, Share, TwinBook, TwinShare, TwinUnsettled, deposit_twin, lose_all, settle_twin,
};
use std::alloc::Global;
use std::process::Abort;
use std::sync::{Mutex, Wait};
use std::test::Fail;

/// The first pool.
const FIRST: Limits = Limits {
    population: 3,
    workers: 2,
    ..DEFAULTS
};

/// The second.
const SECOND: Limits = Limits {
    population: 2,
    workers: 2,
    buf: 0,
    ..DEFAULTS
};

/// What a pool left, and its shares.
type Left = (Closed, Vec<Share>);

/// What both pools left, and their book.
type Both = (Closed, Closed, TwinBook);

/// The tops of both pools as they are, or wrong ones.
type Tops = (Option<u32>, Option<u32>);

/// Why two pools weren't settled, one time after another, and what they came to.
type Ended = (Vec<TwinUnsettled>, Option<Settled>);

/// What a pool left in which worker 1 did this, closed by so many tries.
fn left(alloc: Global, limits: &Limits, acts: &[Act], tries: u32) -> Result<Left, Refusal> {
    let mut pool = SitePool::make(alloc, limits)?;
    play(&mut pool, 1, acts);
    match closed_at_last(alloc, pool, tries) {
        Some((_, closed, shares)) => Ok((closed, shares)),
        None => Err(Refusal::OutOfMemory),
    }
}

/// A worker's shares of both pools as one, where there are both.
fn paired(first: Option<Share>, second: Option<Share>) -> Option<TwinShare> {
    let Some(first) = first else {
        lose_one(second);
        return None;
    };
    let Some(second) = second else {
        first.lose();
        return None;
    };
    if first.worker() != second.worker() {
        first.lose();
        second.lose();
        return None;
    }
    Some(TwinShare::of(first, second))
}

/// Puts a worker's shares in a book, where there are some and their place is free.
fn deposit_one(book: &mut TwinBook, share: Option<TwinShare>) {
    if let Some(share) = share {
        if let Err((_, share)) = book.deposit(share) {
            share.lose();
        }
    }
}

/// Puts a worker's shares in a book that threads share, as the call above does.
fn deposit_shared<R: Wait>(rt: &R, book: &Mutex<TwinBook>, share: Option<TwinShare>) {
    if let Some(share) = share {
        if let Err((_, share)) = deposit_twin(rt, book, share) {
            share.lose();
        }
    }
}

/// Settles two pools, in turn with each of these tops, until they settle. The late shares are in
/// the book from the second time on.
fn settled_in_turn(alloc: Global, both: Both, late: Option<TwinShare>, tops: &[Tops]) -> Ended {
    let mut causes = Vec::new(alloc);
    let (mut first, mut second, mut book) = both;
    let mut late = late;
    let (right, second_right) = (first.top, second.top);
    for (wrong, second_wrong) in tops {
        first.top = wrong.unwrap_or(right);
        second.top = second_wrong.unwrap_or(second_right);
        match settle_twin(alloc, first, second, book) {
            Ok((first, second)) => {
                lose_pair(late);
                let second = Some(second);
                return (causes, Some(Settled { first, second }));
            }
            Err((cause, first_back, second_back, back)) => {
                let _ = causes.push(cause);
                first = first_back;
                second = second_back;
                book = back;
                deposit_one(&mut book, late.take());
            }
        }
    }
    lose_pair(late);
    book.lose();
    (causes, None)
}

/// Ends a worker's shares, where there are some.
fn lose_pair(share: Option<TwinShare>) {
    if let Some(share) = share {
        share.lose();
    }
}

/// Ends two pools, in whose first worker 1 made a packet, by the shares of both workers: those of
/// the first are late, or not. Each pool is closed by so many tries.
fn ended<R: Wait>(
    rt: &R,
    alloc: Global,
    tries: u32,
    is_late: bool,
    tops: &[Tops],
) -> Result<Ended, Refusal> {
    let (first, mut firsts) = left(alloc, &FIRST, &[Act::Alloc], tries)?;
    let (second, mut seconds) = match left(alloc, &SECOND, &[], tries) {
        Ok(left) => left,
        Err(cause) => {
            lose_all(firsts);
            return Err(cause);
        }
    };
    let pair = paired(firsts.pop(), seconds.pop());
    let mut late = paired(firsts.pop(), seconds.pop());
    lose_all(firsts);
    lose_all(seconds);
    match TwinBook::make(alloc, &FIRST, &SECOND) {
        Ok(book) => {
            let book = Mutex::new(book);
            deposit_shared(rt, &book, pair);
            if !is_late {
                deposit_shared(rt, &book, late.take());
            }
            let both = (first, second, book.into_inner());
            Ok(settled_in_turn(alloc, both, late, tops))
        }
        Err(cause) => {
            lose_pair(pair);
            lose_pair(late);
            Err(cause)
        }
    }
}

const TEXT: &str = "population 3\navailable 2\nin use 1\ncommon 2: 1 2\ncache 1 0:\ncache 2 0:\n\
    packet 1 0 segs 1 len 0: 0@128+0/2048\nheld 0 count 1: 1\n\
    second\npopulation 2\navailable 2\nin use 0\ncommon 2: 0 1\ncache 1 0:\ncache 2 0:\n";

const JSON: &str = "{\"first\":{\"available\":2,\"caches\":[[],[]],\"common\":[1,2],\"desks\":[],\
    \"held\":[{\"count\":1,\"elem\":0,\"holders\":[\"1\"]}],\"in_use\":1,\"packets\":[{\"segs\":[\
    {\"base\":null,\"buf\":2048,\"elem\":0,\"len\":0,\"off\":128}],\"slot\":0,\"worker\":1}],\
    \"population\":3},\"second\":{\"available\":2,\"caches\":[[],[]],\"common\":[0,1],\"desks\":[],\
    \"held\":[],\"in_use\":0,\"packets\":[],\"population\":2}}\n";

/// Both statements, as text and as JSON.
fn assert_settled<R: Abort + AllocGlobal>(rt: &R, settled: &Settled) {
    let text = statement_text(rt.alloc(), settled);
    assert_given(rt, text, TEXT, "both statements");
    let json = statement_json(rt.alloc(), settled);
    assert_given(rt, json, JSON, "both statements as JSON");
}

/// The causes in their order, and then both statements.
fn assert_ended<R: Abort + AllocGlobal>(rt: &R, ended: Ended, wanted: &[TwinUnsettled]) {
    let (causes, settled) = ended;
    same(rt, &causes.as_slice(), &wanted, "the causes");
    match settled {
        Some(settled) => assert_settled(rt, &settled),
        None => {
            assert!(rt; false, "what was handed back doesn't settle");
        }
    }
}

/// The share of worker 1 is missing; then both tops are wrong, then that of the second pool, and
/// then neither.
#[test]
fn two_pools_are_settled_once_nothing_is_wrong_with_either(rt: HostRuntime) -> Result<(), Fail> {
    let tops = [
        (None, None),
        (Some(9), Some(9)),
        (None, Some(9)),
        (None, None),
    ];
    let wanted = [
        TwinUnsettled::MissingShare(1),
        TwinUnsettled::First(Fault::BadTop(9)),
        TwinUnsettled::Second(Fault::BadTop(9)),
    ];
    let ended = ended(&rt, rt.alloc(), ONCE, true, &tops)?;
    assert_ended(&rt, ended, &wanted);
    Ok(())
}

/// Whichever request for memory is refused, two pools aren't made, or they settle: what a refused
/// settling hands back settles the next time.
#[test]
fn two_pools_whose_settling_was_refused_memory_settle_the_next_time(rt: HostRuntime) {
    let tops = [(None, None), (None, None)];
    match ended(&rt, rt.alloc(), TWICE, false, &tops) {
        Ok(ended) => {
            let wanted = [TwinUnsettled::OutOfMemory];
            let refused = ended.0.len().min(1);
            assert_ended(&rt, ended, &wanted[..refused]);
        }
        Err(cause) => same(&rt, &cause, &Refusal::OutOfMemory, "two pools aren't made"),
    }
}
