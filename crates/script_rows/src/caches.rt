//! Caches: refill, threshold and flush, by either put rule.

use crate::Row;

pub const ROWS: &[Row] = &[
    (
        "refill",
        "pool 8 cache 4\nalloc a\n",
        "2: ok 4\npopulation 8\navailable 7\nin use 1\ncommon 3: 5 6 7\n\
        cache 1 4: 0 1 2 3\npacket 1 0 segs 1 len 0: 4@128+0/2048\nheld 4 count 1: 1\n",
    ),
    (
        "below the threshold",
        "pool 8 cache 4\nalloc a\nfree a\n",
        "2: ok 4\n3: ok back 1 flushed 0\npopulation 8\navailable 8\nin use 0\n\
        common 3: 5 6 7\ncache 1 5: 0 1 2 3 4\n",
    ),
    (
        "out of reach in the cache",
        "pool 1 cache 1\nalloc a\nfree a\nalloc b\n",
        "2: ok 0\n3: ok back 1 flushed 0\n4: refused 3 NoEntries\n\
        population 1\navailable 1\nin use 0\ncommon 0:\ncache 1 1: 0\n",
    ),
    (
        "flush command",
        "pool 8 cache 4\nalloc a\nflush\nflush\nalloc b\n",
        "2: ok 4\n3: ok flushed 4\n4: ok kept\n5: ok 5\n\
        population 8\navailable 6\nin use 2\ncommon 2: 6 7\ncache 1 4: 3 2 1 0\n\
        packet 1 0 segs 1 len 0: 4@128+0/2048\npacket 1 1 segs 1 len 0: 5@128+0/2048\n\
        held 4 count 1: 1\nheld 5 count 1: 1\n",
    ),
    (
        "two workers",
        "pool 8 cache 4 workers 2\nalloc a\n2: alloc a\n2: free a\n",
        "2: ok 4\n3: ok 5\n4: ok back 1 flushed 0\n\
        population 8\navailable 7\nin use 1\ncommon 2: 6 7\n\
        cache 1 4: 0 1 2 3\ncache 2 1: 5\n\
        packet 1 0 segs 1 len 0: 4@128+0/2048\nheld 4 count 1: 1\n",
    ),
    // The alloc's refill was the last change of the stack that is left.
    (
        "a flush that the stack refuses keeps the cache",
        "pool 8 cache 4 start 1099511627774\nalloc a\nflush\n",
        "2: ok 4\n3: ok putoff 4 HeadSpent\n\
        population 8\navailable 7\nin use 1\ncommon 3: 5 6 7\ncache 1 4: 0 1 2 3\n\
        packet 1 0 segs 1 len 0: 4@128+0/2048\nheld 4 count 1: 1\n",
    ),
    (
        "whole put rule",
        "pool 8 cache 4 putrule 1\nbulk a b c d\nbulk e f g h\n\
        free a\nfree b\nfree c\nfree d\nfree e\nfree f\nfree g\n",
        "2: ok 0 1 2 3\n3: ok 4 5 6 7\n4: ok back 1 flushed 0\n5: ok back 1 flushed 0\n\
        6: ok back 1 flushed 0\n7: ok back 1 flushed 0\n8: ok back 1 flushed 0\n\
        9: ok back 1 flushed 0\n10: ok back 1 flushed 6\n\
        population 8\navailable 7\nin use 1\ncommon 6: 5 4 3 2 1 0\ncache 1 1: 6\n\
        packet 1 7 segs 1 len 0: 7@128+0/2048\nheld 7 count 1: 1\n",
    ),
    // The two bulks were the last changes of the stack that were left.
    (
        "a whole cache that the stack refuses stays in front of the list",
        "pool 8 cache 4 putrule 1 start 1099511627773\nbulk a b c d\nbulk e f g h\n\
        free a\nfree b\nfree c\nfree d\nfree e\nfree f\nfree g\nflush\n",
        "2: ok 0 1 2 3\n3: ok 4 5 6 7\n4: ok back 1 flushed 0\n5: ok back 1 flushed 0\n\
        6: ok back 1 flushed 0\n7: ok back 1 flushed 0\n8: ok back 1 flushed 0\n\
        9: ok back 1 flushed 0\n10: ok back 1 flushed 0 putoff 6 HeadSpent\n\
        11: ok putoff 7 HeadSpent\npopulation 8\navailable 7\nin use 1\ncommon 0:\n\
        cache 1 7: 0 1 2 3 4 5 6\npacket 1 7 segs 1 len 0: 7@128+0/2048\nheld 7 count 1: 1\n",
    ),
    (
        "where a cache keeps nothing both put rules are one",
        "pool 3 putrule 1\nalloc a\nalloc b\nfree a\n",
        "2: ok 0\n3: ok 1\n4: ok back 1 flushed 1\n\
        population 3\navailable 2\nin use 1\ncommon 2: 0 2\ncache 1 0:\n\
        packet 1 1 segs 1 len 0: 1@128+0/2048\nheld 1 count 1: 1\n",
    ),
    // No worker frees another's packet, though both have given it the same name, and a flush is of
    // the worker's own cache.
    (
        "names and caches are each workers own",
        "pool 16 workers 3 cache 4\n3: alloc x\n1: free x\n03: flush\n 2:  flush \n\
        3: free x\n",
        "2: ok 4\n3: refused 13 NoSuchPacket\n4: ok flushed 4\n5: ok kept\n\
        6: ok back 1 flushed 0\npopulation 16\navailable 16\nin use 0\n\
        common 15: 3 2 1 0 5 6 7 8 9 10 11 12 13 14 15\n\
        cache 1 0:\ncache 2 0:\ncache 3 1: 4\n",
    ),
];
