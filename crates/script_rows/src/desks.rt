//! Packets that pass over desks.

use crate::Row;

pub const ROWS: &[Row] = &[
    (
        "clone over a desk",
        "pool 8 cache 4 workers 2 desks 1\nalloc a\nclone a b\ncount a\noffer b 0\n\
        free a\n2: take 0 x\n2: free x\n",
        "2: ok 4\n3: ok 3\n4: ok 2\n5: ok\n6: ok back 0 flushed 0\n7: ok 1 0\n\
        8: ok back 2 flushed 0\n\
        population 8\navailable 8\nin use 0\ncommon 3: 5 6 7\ncache 1 3: 0 1 2\n\
        cache 2 2: 4 3\n",
    ),
    (
        "desk refusals",
        "pool 4 workers 2 desks 1\nalloc a\nalloc b\noffer a 0\noffer b 0\noffer b 1\n\
        2: take 0 x\n2: take 0 y\noffer a 0\n",
        "2: ok 0\n3: ok 1\n4: ok\n5: refused 15 DeskTaken\n6: refused 17 NoSuchDesk\n\
        7: ok 1 0\n8: refused 16 DeskEmpty\n9: refused 13 NoSuchPacket\n\
        population 4\navailable 2\nin use 2\ncommon 2: 2 3\ncache 1 0:\ncache 2 0:\n\
        packet 1 1 segs 1 len 0: 1@128+0/2048\npacket 2 0 segs 1 len 0: 0@128+0/2048\n\
        held 0 count 1: 2\nheld 1 count 1: 1\n",
    ),
    // The name of one worker goes with the packet that it offers. Another makes the same name of
    // its own.
    (
        "a name that is offered and taken is each workers own",
        "pool 4 workers 2 desks 1\nalloc a\noffer a 0\n2: take 0 a\nappend a 5\n\
        2: append a 9\n2: offer a 0\ntake 0 b\n2: free a\nfree a\n",
        "2: ok 0\n3: ok\n4: ok 1 0\n5: refused 13 NoSuchPacket\n6: ok 9\n7: ok\n8: ok 1 9\n\
        9: refused 13 NoSuchPacket\n10: refused 13 NoSuchPacket\n\
        population 4\navailable 3\nin use 1\ncommon 3: 1 2 3\ncache 1 0:\ncache 2 0:\n\
        packet 1 0 segs 1 len 9: 0@128+9/2048\nheld 0 count 1: 1\n",
    ),
    // A take that is refused leaves its name without a packet, and an offer that is refused leaves
    // the name with its own.
    (
        "a refusal at a desk leaves the names",
        "pool 2 desks 1\ntake 0 x\nfree x\nalloc a\noffer a 1\nappend a 3\n",
        "2: refused 16 DeskEmpty\n3: refused 13 NoSuchPacket\n4: ok 0\n\
        5: refused 17 NoSuchDesk\n6: ok 3\n\
        population 2\navailable 1\nin use 1\ncommon 1: 1\ncache 1 0:\n\
        packet 1 0 segs 1 len 3: 0@128+3/2048\nheld 0 count 1: 1\n",
    ),
    // Desk 1 stays empty. Element 0 is held by worker 1 and, twice, by the chain on desk 2.
    (
        "a held element is listed with its desks",
        "pool 6 workers 2 desks 3\nalloc a\nclone a b\nclone a c\nchain b c\noffer b 2\n\
        2: alloc d\n2: offer d 0\n",
        "2: ok 0\n3: ok 1\n4: ok 2\n5: ok 2 0\n6: ok\n7: ok 3\n8: ok\n\
        population 6\navailable 2\nin use 4\ncommon 2: 4 5\ncache 1 0:\ncache 2 0:\n\
        packet 1 0 segs 1 len 0: 0@128+0/2048\n\
        desk 0 segs 1 len 0: 3@128+0/2048\n\
        desk 2 segs 2 len 0: 1>0@128+0/2048 2>0@128+0/2048\n\
        held 0 count 3: 1 d2 d2\nheld 1 count 1: d2\nheld 2 count 1: d2\nheld 3 count 1: d0\n",
    ),
    (
        "a packet on a desk keeps its base as its clone is freed",
        "pool 4 workers 2 desks 1\nalloc a\nclone a b\noffer a 0\nfree b\n",
        "2: ok 0\n3: ok 1\n4: ok\n5: ok back 1 flushed 1\n\
        population 4\navailable 3\nin use 1\ncommon 3: 1 2 3\ncache 1 0:\ncache 2 0:\n\
        desk 0 segs 1 len 0: 0@128+0/2048\nheld 0 count 1: d0\n",
    ),
    (
        "a clone on a desk keeps its base as its packet is freed",
        "pool 4 workers 2 desks 1\nalloc a\nclone a b\noffer b 0\nfree a\n",
        "2: ok 0\n3: ok 1\n4: ok\n5: ok back 0 flushed 0\n\
        population 4\navailable 2\nin use 2\ncommon 2: 2 3\ncache 1 0:\ncache 2 0:\n\
        desk 0 segs 1 len 0: 1>0@128+0/2048\nheld 0 count 1: d0\nheld 1 count 1: d0\n",
    ),
];
