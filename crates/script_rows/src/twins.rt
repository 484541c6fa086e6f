//! Scripts with a second pool, for foreign clones: their own elements are of the second, and their
//! bases of the first.

use crate::Row;

/// A clone of a packet into the second pool, and what it is refused.
pub const FOREIGN_CLONE: &str = "pool 4 desks 1 second 2\nalloc a\nappend a 100\ncloneto a b\n\
    count a\noffer b 0\nfree a\ncount b\ncloneto b c\n";

/// What its replay prints.
pub const FOREIGN_CLONE_TEXT: &str = "2: ok 0\n3: ok 100\n4: ok 0\n5: ok 2\n\
    6: refused 22 Foreign\n7: ok back 0 flushed 0\n8: ok 1\n9: refused 22 Foreign\n\
    population 4\navailable 3\nin use 1\ncommon 3: 1 2 3\ncache 1 0:\nheld 0 count 1: 1\n\
    second\n\
    population 2\navailable 1\nin use 1\ncommon 1: 1\ncache 1 0:\n\
    packet 1 0 segs 1 len 100: 0>0@128+100/2048\nheld 0 count 1: 1\n";

/// Where each element is at its end.
pub const FOREIGN_CLONE_END: &str = "population 4\navailable 3\nin use 1\ncommon 3: 1 2 3\n\
    cache 1 0:\nheld 0 count 1: 1\n\
    second\n\
    population 2\navailable 1\nin use 1\ncommon 1: 1\ncache 1 0:\n\
    packet 1 0 segs 1 len 100: 0>0@128+100/2048\nheld 0 count 1: 1\n";

/// The same as JSON.
pub const FOREIGN_CLONE_JSON: &str = "{\"first\":{\"available\":3,\"caches\":[[]],\
    \"common\":[1,2,3],\"desks\":[],\"held\":[{\"count\":1,\"elem\":0,\"holders\":[\"1\"]}],\
    \"in_use\":1,\"packets\":[],\"population\":4},\"second\":{\"available\":1,\"caches\":[[]],\
    \"common\":[1],\"desks\":[],\"held\":[{\"count\":1,\"elem\":0,\"holders\":[\"1\"]}],\
    \"in_use\":1,\"packets\":[{\"segs\":[{\"base\":0,\"buf\":2048,\"elem\":0,\"len\":100,\
    \"off\":128}],\"slot\":0,\"worker\":1}],\"population\":2}}\n";

pub const ROWS: &[Row] = &[
    ("foreign clone", FOREIGN_CLONE, FOREIGN_CLONE_TEXT),
    // The text of the file examples/two-pools.script.
    (
        "example of two pools",
        "# A packet goes to three receivers. Each has a clone of it, whose header is of a second pool that\n\
        # has headers and no buffers; all read the packet's one buffer, which stays until the last is freed.\n\
        pool 8 cache 4 second 8 secondcache 4\nalloc packet\nappend packet 1000\n\
        cloneto packet first\ncloneto packet second\ncloneto packet third\ncount packet\n\
        free packet\nadj first 14\nfree first\nfree second\n",
        "4: ok 4\n5: ok 1000\n6: ok 4\n7: ok 3\n8: ok 2\n9: ok 4\n10: ok back 0 flushed 0\n\
        11: ok 986\n12: ok back 1 flushed 0\n13: ok back 1 flushed 0\n\
        population 8\navailable 7\nin use 1\ncommon 3: 5 6 7\ncache 1 4: 0 1 2 3\n\
        held 4 count 1: 1\n\
        second\n\
        population 8\navailable 7\nin use 1\ncommon 3: 5 6 7\ncache 1 4: 0 1 4 3\n\
        packet 1 2 segs 1 len 1000: 2>4@128+1000/2048\nheld 2 count 1: 1\n",
    ),
    (
        "foreign clone freed",
        "pool 4 desks 1 second 2\nalloc a\nappend a 100\ncloneto a b\ncount a\noffer b 0\nfree a\n\
        count b\ncloneto b c\nfree b\n",
        "2: ok 0\n3: ok 100\n4: ok 0\n5: ok 2\n6: refused 22 Foreign\n\
        7: ok back 0 flushed 0\n8: ok 1\n9: refused 22 Foreign\n10: ok back 2 flushed 2\n\
        population 4\navailable 4\nin use 0\ncommon 4: 0 1 2 3\ncache 1 0:\n\
        second\n\
        population 2\navailable 2\nin use 0\ncommon 2: 0 1\ncache 1 0:\n",
    ),
    (
        "foreign clone refused",
        "pool 4 second 1\nalloc a\nalloc b\nchain a b\ncloneto a c\n",
        "2: ok 0\n3: ok 1\n4: ok 2 0\n5: refused 3 NoEntries\n\
        population 4\navailable 2\nin use 2\ncommon 2: 2 3\ncache 1 0:\n\
        packet 1 0 segs 2 len 0: 0@128+0/2048 1@128+0/2048\n\
        held 0 count 1: 1\nheld 1 count 1: 1\n\
        second\n\
        population 1\navailable 1\nin use 0\ncommon 1: 0\ncache 1 0:\n",
    ),
    // A name that stands for nothing is told before one that stands for a foreign clone.
    (
        "what a foreign clone is refused and served",
        "pool 6 desks 1 second 4\nalloc a\nappend a 50\ncloneto a b\nappend b 1\nprepend b 1\n\
        chain a b\nchain b a\nchain b z\nchain z b\nattach a b\nattach b a\nattach b z\n\
        attach b b\ndetach b\nclone b c\ncloneto b d\noffer b 9\noffer z 9\nadj b 8\ntrim b 2\n\
        adj b 41\ncount b\ncount a\ndetach z\n",
        "2: ok 0\n3: ok 50\n4: ok 0\n5: refused 22 Foreign\n6: refused 22 Foreign\n\
        7: refused 22 Foreign\n8: refused 22 Foreign\n9: refused 13 NoSuchPacket\n\
        10: refused 13 NoSuchPacket\n11: refused 22 Foreign\n12: refused 22 Foreign\n\
        13: refused 13 NoSuchPacket\n14: refused 22 Foreign\n15: refused 22 Foreign\n\
        16: refused 22 Foreign\n17: refused 22 Foreign\n18: refused 22 Foreign\n\
        19: refused 13 NoSuchPacket\n20: ok 42\n21: ok 40\n22: refused 9 TooShort\n23: ok 1\n\
        24: ok 2\n25: refused 13 NoSuchPacket\n\
        population 6\navailable 5\nin use 1\ncommon 5: 1 2 3 4 5\ncache 1 0:\n\
        packet 1 0 segs 1 len 50: 0@128+50/2048\nheld 0 count 2: 1 1\n\
        second\n\
        population 4\navailable 3\nin use 1\ncommon 3: 1 2 3\ncache 1 0:\n\
        packet 1 0 segs 1 len 40: 0>0@136+40/2048\nheld 0 count 1: 1\n",
    ),
    // Of each segment the base goes back into the first pool, and then the own element into the
    // second, each by the cache there. A flush is of the first pool's cache alone.
    (
        "foreign clones over both caches",
        "pool 8 cache 2 second 6 secondcache 2\nbulk a b\nappend a 9\nchain a b\ncloneto a c\n\
        cloneto a d\nfree c\nfree a\nflush\nfree d\nflush\n",
        "2: ok 0 1\n3: ok 9\n4: ok 2 9\n5: ok 2 1\n6: ok 0 5\n7: ok back 2 flushed 2\n\
        8: ok back 0 flushed 0\n9: ok kept\n10: ok back 4 flushed 2\n11: ok flushed 2\n\
        population 8\navailable 8\nin use 0\ncommon 8: 1 0 2 3 4 5 6 7\ncache 1 0:\n\
        second\n\
        population 6\navailable 6\nin use 0\ncommon 4: 5 0 1 2\ncache 1 2: 3 4\n",
    ),
    // The base's count is at the limit of the first pool; the element that was got goes back.
    (
        "foreign clone at the reference limit",
        "pool 4 refs 2 second 4\nalloc a\ncloneto a b\ncloneto a c\ncount a\nfree b\ncloneto a d\n\
        count a\n",
        "2: ok 0\n3: ok 0\n4: refused 6 RefSpent\n5: ok 2\n6: ok back 1 flushed 1\n7: ok 0\n\
        8: ok 2\n\
        population 4\navailable 3\nin use 1\ncommon 3: 1 2 3\ncache 1 0:\n\
        packet 1 0 segs 1 len 0: 0@128+0/2048\nheld 0 count 2: 1 1\n\
        second\n\
        population 4\navailable 3\nin use 1\ncommon 3: 1 2 3\ncache 1 0:\n\
        packet 1 0 segs 1 len 0: 0>0@128+0/2048\nheld 0 count 1: 1\n",
    ),
    // A worker keeps a header whose buffer is that of a packet of another's.
    (
        "a header of one worker and a body of another",
        "pool 4 workers 2 desks 1 second 2\nalloc a\nappend a 30\ncloneto a h\noffer a 0\n\
        2: take 0 b\n2: append b 1\n",
        "2: ok 0\n3: ok 30\n4: ok 0\n5: ok\n6: ok 1 30\n7: ok 31\n\
        population 4\navailable 3\nin use 1\ncommon 3: 1 2 3\ncache 1 0:\ncache 2 0:\n\
        packet 2 0 segs 1 len 31: 0@128+31/2048\nheld 0 count 2: 1 2\n\
        second\n\
        population 2\navailable 1\nin use 1\ncommon 1: 1\ncache 1 0:\ncache 2 0:\n\
        packet 1 0 segs 1 len 30: 0>0@128+30/2048\nheld 0 count 1: 1\n",
    ),
    // A packet comes over a desk, and is cloned by who took it.
    (
        "foreign clones of two workers",
        "pool 8 workers 2 desks 1 second 4\nalloc a\nappend a 20\noffer a 0\n2: take 0 p\n\
        2: cloneto p q\n2: free p\n2: cloneto q r\n2: alloc s\n2: append s 7\n2: cloneto s t\n\
        alloc b\ncloneto b c\n",
        "2: ok 0\n3: ok 20\n4: ok\n5: ok 1 20\n6: ok 0\n7: ok back 0 flushed 0\n\
        8: refused 22 Foreign\n9: ok 1\n10: ok 7\n11: ok 1\n12: ok 2\n13: ok 2\n\
        population 8\navailable 5\nin use 3\ncommon 5: 3 4 5 6 7\ncache 1 0:\ncache 2 0:\n\
        packet 1 0 segs 1 len 0: 2@128+0/2048\npacket 2 0 segs 1 len 7: 1@128+7/2048\n\
        held 0 count 1: 2\nheld 1 count 2: 2 2\nheld 2 count 2: 1 1\n\
        second\n\
        population 4\navailable 1\nin use 3\ncommon 1: 3\ncache 1 0:\ncache 2 0:\n\
        packet 1 0 segs 1 len 0: 2>2@128+0/2048\npacket 2 0 segs 1 len 20: 0>0@128+20/2048\n\
        packet 2 1 segs 1 len 7: 1>1@128+7/2048\n\
        held 0 count 1: 2\nheld 1 count 1: 2\nheld 2 count 1: 1\n",
    ),
];
