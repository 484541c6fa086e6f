//! Pools and their packets; the scripts of `examples/`.

use crate::Row;

pub const FIRST_RUN: &str = "pool 3\nalloc a\nalloc b\nfree a\n";

pub const FIRST_RUN_TEXT: &str = "2: ok 0\n3: ok 1\n4: ok back 1 flushed 1\n\
    population 3\navailable 2\nin use 1\ncommon 2: 0 2\ncache 1 0:\n\
    packet 1 1 segs 1 len 0: 1@128+0/2048\nheld 1 count 1: 1\n";

pub const ROWS: &[Row] = &[
    // The file examples/first-run.script has this script, too.
    ("first run", FIRST_RUN, FIRST_RUN_TEXT),
    // The text of the file examples/desks.script.
    (
        "example of desks",
        "# Worker 1 keeps a clone of a packet and passes the packet to worker 2 over desk 0.\n\
        pool 8 cache 4 workers 2 desks 1\nalloc a\nappend a 100\nclone a b\noffer a 0\n\
        2: take 0 x\nfree b\n",
        "3: ok 4\n4: ok 100\n5: ok 3\n6: ok\n7: ok 1 100\n8: ok back 1 flushed 0\n\
        population 8\navailable 7\nin use 1\ncommon 3: 5 6 7\ncache 1 4: 0 1 2 3\n\
        cache 2 0:\npacket 2 0 segs 1 len 100: 4@128+100/2048\nheld 4 count 1: 2\n",
    ),
    (
        "empty scripts",
        "pool 3\n",
        "population 3\navailable 3\nin use 0\ncommon 3: 0 1 2\ncache 1 0:\n",
    ),
    (
        "count spent",
        "pool 3 start 1099511627774\nalloc a\nfree a\nalloc b\n",
        "2: ok 0\n3: ok back 1 flushed 0 putoff 1 HeadSpent\n4: refused 5 HeadSpent\n\
        population 3\navailable 3\nin use 0\ncommon 2: 1 2\ncache 1 1: 0\n",
    ),
    (
        "freeing a name that stands for nothing is refused",
        "pool 2\nfree a\nalloc a\nfree a\nfree a\n",
        "2: refused 13 NoSuchPacket\n3: ok 0\n4: ok back 1 flushed 1\n\
        5: refused 13 NoSuchPacket\n\
        population 2\navailable 2\nin use 0\ncommon 2: 0 1\ncache 1 0:\n",
    ),
    (
        "a drained pool refuses to make a packet",
        "pool 1\nalloc a\nalloc b\nfree b\n",
        "2: ok 0\n3: refused 3 NoEntries\n4: refused 13 NoSuchPacket\n\
        population 1\navailable 0\nin use 1\ncommon 0:\ncache 1 0:\n\
        packet 1 0 segs 1 len 0: 0@128+0/2048\nheld 0 count 1: 1\n",
    ),
    (
        "a short buffer is all headroom",
        "pool 1 buf 100\nalloc a\n",
        "2: ok 0\npopulation 1\navailable 0\nin use 1\ncommon 0:\ncache 1 0:\n\
        packet 1 0 segs 1 len 0: 0@100+0/100\nheld 0 count 1: 1\n",
    ),
    (
        "comments count as lines",
        "# two packets\n\npool 2\n  # one\nalloc a\n\nalloc b\n",
        "5: ok 0\n7: ok 1\npopulation 2\navailable 0\nin use 2\ncommon 0:\ncache 1 0:\n\
        packet 1 0 segs 1 len 0: 0@128+0/2048\npacket 1 1 segs 1 len 0: 1@128+0/2048\n\
        held 0 count 1: 1\nheld 1 count 1: 1\n",
    ),
];
