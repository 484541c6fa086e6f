//! Lengths, chains and bulks.

use crate::Row;

pub const ROWS: &[Row] = &[
    (
        "lengths",
        "pool 1\nalloc a\nappend a 1921\nappend a 1920\nprepend a 129\nprepend a 128\n\
        adj a 2049\ntrim a 2048\n",
        "2: ok 0\n3: refused 8 NoRoom\n4: ok 1920\n5: refused 8 NoRoom\n6: ok 2048\n\
        7: refused 9 TooShort\n8: ok 0\n\
        population 1\navailable 0\nin use 1\ncommon 0:\ncache 1 0:\n\
        packet 1 0 segs 1 len 0: 0@0+0/2048\nheld 0 count 1: 1\n",
    ),
    (
        "free a chain",
        "pool 4\nalloc a\nalloc b\nchain a b\nfree a\n",
        "2: ok 0\n3: ok 1\n4: ok 2 0\n5: ok back 2 flushed 2\n\
        population 4\navailable 4\nin use 0\ncommon 4: 1 0 2 3\ncache 1 0:\n",
    ),
    // The front of a chain changes in its first segment, and its end in its last.
    (
        "a chain changes at its ends",
        "pool 3 buf 200\nalloc a\nalloc b\nappend a 72\nappend b 10\nchain a b\n\
        append a 5\nprepend a 8\nadj a 80\nadj a 1\ntrim a 16\ntrim a 15\nchain b a\n",
        "2: ok 0\n3: ok 1\n4: ok 72\n5: ok 10\n6: ok 2 82\n7: ok 87\n8: ok 95\n9: ok 15\n\
        10: refused 9 TooShort\n11: refused 9 TooShort\n12: ok 0\n13: refused 13 NoSuchPacket\n\
        population 3\navailable 1\nin use 2\ncommon 1: 2\ncache 1 0:\n\
        packet 1 0 segs 2 len 0: 0@200+0/200 1@128+0/200\nheld 0 count 1: 1\nheld 1 count 1: 1\n",
    ),
    (
        "a packet is not chained to itself",
        "pool 2\nalloc a\nchain a a\nchain a b\nalloc b\nchain a b\nfree b\n",
        "2: ok 0\n3: refused 23 SamePacket\n4: refused 13 NoSuchPacket\n5: ok 1\n6: ok 2 0\n\
        7: refused 13 NoSuchPacket\n\
        population 2\navailable 0\nin use 2\ncommon 0:\ncache 1 0:\n\
        packet 1 0 segs 2 len 0: 0@128+0/2048 1@128+0/2048\n\
        held 0 count 1: 1\nheld 1 count 1: 1\n",
    ),
    (
        "lengths have sixteen bits",
        "pool 3\nappend a 65535\n",
        "2: refused 13 NoSuchPacket\n\
        population 3\navailable 3\nin use 0\ncommon 3: 0 1 2\ncache 1 0:\n",
    ),
    (
        "flush at the threshold",
        "pool 8 cache 4\nbulk a b c d\nbulk e f g h\nfree a\nfree b\nfree c\nfree d\n\
        free e\nfree f\n",
        "2: ok 0 1 2 3\n3: ok 4 5 6 7\n4: ok back 1 flushed 0\n5: ok back 1 flushed 0\n\
        6: ok back 1 flushed 0\n7: ok back 1 flushed 0\n8: ok back 1 flushed 0\n\
        9: ok back 1 flushed 2\n\
        population 8\navailable 6\nin use 2\ncommon 2: 5 4\ncache 1 4: 0 1 2 3\n\
        packet 1 6 segs 1 len 0: 6@128+0/2048\npacket 1 7 segs 1 len 0: 7@128+0/2048\n\
        held 6 count 1: 1\nheld 7 count 1: 1\n",
    ),
    (
        "refused though available",
        "pool 8 cache 4\nalloc a\nbulk b c d e\n",
        "2: ok 4\n3: refused 3 NoEntries\n\
        population 8\navailable 7\nin use 1\ncommon 3: 5 6 7\n\
        cache 1 4: 0 1 2 3\npacket 1 0 segs 1 len 0: 4@128+0/2048\nheld 4 count 1: 1\n",
    ),
    (
        "refill refused",
        "pool 8 cache 4\nbulk a b c d e f\nalloc g\n",
        "2: ok 0 1 2 3 4 5\n3: ok 6\n\
        population 8\navailable 1\nin use 7\ncommon 1: 7\ncache 1 0:\n\
        packet 1 0 segs 1 len 0: 0@128+0/2048\npacket 1 1 segs 1 len 0: 1@128+0/2048\n\
        packet 1 2 segs 1 len 0: 2@128+0/2048\npacket 1 3 segs 1 len 0: 3@128+0/2048\n\
        packet 1 4 segs 1 len 0: 4@128+0/2048\npacket 1 5 segs 1 len 0: 5@128+0/2048\n\
        packet 1 6 segs 1 len 0: 6@128+0/2048\n\
        held 0 count 1: 1\nheld 1 count 1: 1\nheld 2 count 1: 1\nheld 3 count 1: 1\n\
        held 4 count 1: 1\nheld 5 count 1: 1\nheld 6 count 1: 1\n",
    ),
];
