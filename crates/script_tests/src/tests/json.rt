//! Statements as JSON.

use super::JsonRow;
use script_rows::twins::FOREIGN_CLONE;

/// The end of the first run, whose element 1 alone is held.
pub(super) const FIRST_RUN_JSON: &str = "{\"available\":2,\"caches\":[[]],\"common\":[0,2],\
    \"desks\":[],\"held\":[{\"count\":1,\"elem\":1,\"holders\":[\"1\"]}],\"in_use\":1,\
    \"packets\":[{\"segs\":[{\"base\":null,\"buf\":2048,\"elem\":1,\"len\":0,\"off\":128}],\
    \"slot\":1,\"worker\":1}],\"population\":3}\n";

pub(super) const ROWS: &[JsonRow] = &[
    (
        "refill",
        "pool 8 cache 4\nalloc a\n",
        r#"{"available":7,"caches":[[0,1,2,3]],"common":[5,6,7],"desks":[],"held":[{"count":1,"elem":4,"holders":["1"]}],"in_use":1,"packets":[{"segs":[{"base":null,"buf":2048,"elem":4,"len":0,"off":128}],"slot":0,"worker":1}],"population":8}"#,
    ),
    (
        "clone of a clone",
        "pool 8 cache 4\nalloc a\nappend a 100\nclone a b\nclone b c\ncount a\ncount b\n\
        detach b\ncount a\n",
        r#"{"available":5,"caches":[[0,1]],"common":[5,6,7],"desks":[],"held":[{"count":1,"elem":2,"holders":["1"]},{"count":1,"elem":3,"holders":["1"]},{"count":2,"elem":4,"holders":["1","1"]}],"in_use":3,"packets":[{"segs":[{"base":null,"buf":2048,"elem":4,"len":100,"off":128}],"slot":0,"worker":1},{"segs":[{"base":null,"buf":2048,"elem":3,"len":0,"off":128}],"slot":1,"worker":1},{"segs":[{"base":4,"buf":2048,"elem":2,"len":100,"off":128}],"slot":2,"worker":1}],"population":8}"#,
    ),
    // Desk 1 stays empty. Element 0 is held by worker 1 and, twice, by the chain on desk 2.
    (
        "a held element is listed with its desks",
        "pool 6 workers 2 desks 3\nalloc a\nclone a b\nclone a c\nchain b c\noffer b 2\n\
        2: alloc d\n2: offer d 0\n",
        r#"{"available":2,"caches":[[],[]],"common":[4,5],"desks":[{"desk":0,"segs":[{"base":null,"buf":2048,"elem":3,"len":0,"off":128}]},{"desk":2,"segs":[{"base":0,"buf":2048,"elem":1,"len":0,"off":128},{"base":0,"buf":2048,"elem":2,"len":0,"off":128}]}],"held":[{"count":3,"elem":0,"holders":["1","d2","d2"]},{"count":1,"elem":1,"holders":["d2"]},{"count":1,"elem":2,"holders":["d2"]},{"count":1,"elem":3,"holders":["d0"]}],"in_use":4,"packets":[{"segs":[{"base":null,"buf":2048,"elem":0,"len":0,"off":128}],"slot":0,"worker":1}],"population":6}"#,
    ),
    (
        "foreign clone",
        FOREIGN_CLONE,
        r#"{"first":{"available":3,"caches":[[]],"common":[1,2,3],"desks":[],"held":[{"count":1,"elem":0,"holders":["1"]}],"in_use":1,"packets":[],"population":4},"second":{"available":1,"caches":[[]],"common":[1],"desks":[],"held":[{"count":1,"elem":0,"holders":["1"]}],"in_use":1,"packets":[{"segs":[{"base":0,"buf":2048,"elem":0,"len":100,"off":128}],"slot":0,"worker":1}],"population":2}}"#,
    ),
    (
        "a chain of two lengths in buffers of 300 bytes",
        "pool 4 buf 300 workers 2\n2: alloc a\n2: append a 100\n2: prepend a 20\n2: alloc b\n\
        2: append b 7\n2: chain a b\n",
        r#"{"available":2,"caches":[[],[]],"common":[2,3],"desks":[],"held":[{"count":1,"elem":0,"holders":["2"]},{"count":1,"elem":1,"holders":["2"]}],"in_use":2,"packets":[{"segs":[{"base":null,"buf":300,"elem":0,"len":120,"off":108},{"base":null,"buf":300,"elem":1,"len":7,"off":128}],"slot":0,"worker":2}],"population":4}"#,
    ),
];
