//! Clones, attaches and detaches.

use crate::Row;

pub const ROWS: &[Row] = &[
    (
        "clone of a clone",
        "pool 8 cache 4\nalloc a\nappend a 100\nclone a b\nclone b c\ncount a\ncount b\n\
        detach b\ncount a\n",
        "2: ok 4\n3: ok 100\n4: ok 3\n5: ok 2\n6: ok 3\n7: ok 1\n8: ok back 0 flushed 0\n\
        9: ok 2\n\
        population 8\navailable 5\nin use 3\ncommon 3: 5 6 7\ncache 1 2: 0 1\n\
        packet 1 0 segs 1 len 100: 4@128+100/2048\npacket 1 1 segs 1 len 0: 3@128+0/2048\n\
        packet 1 2 segs 1 len 100: 2>4@128+100/2048\n\
        held 2 count 1: 1\nheld 3 count 1: 1\nheld 4 count 2: 1 1\n",
    ),
    (
        "clone at the reference limit",
        "pool 4 cache 2 refs 2\nalloc a\nclone a b\nclone a c\ncount a\n",
        "2: ok 2\n3: ok 1\n4: refused 6 RefSpent\n5: ok 2\n\
        population 4\navailable 2\nin use 2\ncommon 1: 3\ncache 1 1: 0\n\
        packet 1 0 segs 1 len 0: 2@128+0/2048\npacket 1 1 segs 1 len 0: 1>2@128+0/2048\n\
        held 1 count 1: 1\nheld 2 count 2: 1 1\n",
    ),
    (
        "clone of a chain refused",
        "pool 5\nalloc a\nalloc b\nalloc c\nchain a b\nchain a c\nclone a d\nchain a a\n\
        free b\n",
        "2: ok 0\n3: ok 1\n4: ok 2\n5: ok 2 0\n6: ok 3 0\n7: refused 3 NoEntries\n\
        8: refused 23 SamePacket\n9: refused 13 NoSuchPacket\n\
        population 5\navailable 2\nin use 3\ncommon 2: 4 3\ncache 1 0:\n\
        packet 1 0 segs 3 len 0: 0@128+0/2048 1@128+0/2048 2@128+0/2048\n\
        held 0 count 1: 1\nheld 1 count 1: 1\nheld 2 count 1: 1\n",
    ),
    (
        "attach and detach",
        "pool 4\nalloc a\nalloc b\nappend a 10\nattach b a\nattach b a\ndetach a\nfree a\n\
        free b\n",
        "2: ok 0\n3: ok 1\n4: ok 10\n5: ok\n6: refused 10 NotDirect\n\
        7: refused 11 NotIndirect\n8: ok back 0 flushed 0\n9: ok back 2 flushed 2\n\
        population 4\navailable 4\nin use 0\ncommon 4: 1 0 2 3\ncache 1 0:\n",
    ),
    (
        "attach refused",
        "pool 6\nalloc a\nalloc b\nclone b c\nattach b a\nattach a a\n",
        "2: ok 0\n3: ok 1\n4: ok 2\n5: refused 12 InUse\n6: refused 23 SamePacket\n\
        population 6\navailable 3\nin use 3\ncommon 3: 3 4 5\ncache 1 0:\n\
        packet 1 0 segs 1 len 0: 0@128+0/2048\npacket 1 1 segs 1 len 0: 1@128+0/2048\n\
        packet 1 2 segs 1 len 0: 2>1@128+0/2048\n\
        held 0 count 1: 1\nheld 1 count 2: 1 1\nheld 2 count 1: 1\n",
    ),
    (
        "attach at the reference limit",
        "pool 4 refs 1\nalloc a\nalloc b\nattach b a\n",
        "2: ok 0\n3: ok 1\n4: refused 6 RefSpent\n\
        population 4\navailable 2\nin use 2\ncommon 2: 2 3\ncache 1 0:\n\
        packet 1 0 segs 1 len 0: 0@128+0/2048\npacket 1 1 segs 1 len 0: 1@128+0/2048\n\
        held 0 count 1: 1\nheld 1 count 1: 1\n",
    ),
    // Of each segment the base goes back first, and then the clone's own element.
    (
        "the last clone of a chain gives its bases back",
        "pool 6\nalloc a\nalloc b\nchain a b\nclone a c\nfree a\nfree c\n",
        "2: ok 0\n3: ok 1\n4: ok 2 0\n5: ok 2 3\n6: ok back 0 flushed 0\n\
        7: ok back 4 flushed 4\n\
        population 6\navailable 6\nin use 0\ncommon 6: 3 1 2 0 4 5\ncache 1 0:\n",
    ),
    // A packet of several segments is neither attached nor detached, and a name that stands for
    // none is refused.
    (
        "what has no buffer to share",
        "pool 4\nalloc a\nalloc b\nchain a b\nalloc c\nattach a c\nattach c b\nattach b c\n\
        detach a\ndetach b\ncount b\nclone b d\n",
        "2: ok 0\n3: ok 1\n4: ok 2 0\n5: ok 2\n6: refused 7 TooManySegs\n\
        7: refused 13 NoSuchPacket\n8: refused 13 NoSuchPacket\n9: refused 7 TooManySegs\n\
        10: refused 13 NoSuchPacket\n11: refused 13 NoSuchPacket\n12: refused 13 NoSuchPacket\n\
        population 4\navailable 1\nin use 3\ncommon 1: 3\ncache 1 0:\n\
        packet 1 0 segs 2 len 0: 0@128+0/2048 1@128+0/2048\n\
        packet 1 1 segs 1 len 0: 2@128+0/2048\n\
        held 0 count 1: 1\nheld 1 count 1: 1\nheld 2 count 1: 1\n",
    ),
];
