//! Snapshots with a fault, and the line that tells of it, as rows for the crates of tests that read
//! them.
#![tactic(auto)]

use std::alloc::{AllocError, Global};

/// A snapshot's members behind its limits, as JSON.
#[derive(Clone, Copy, Debug)]
pub struct Members {
    /// The stack as a list or as words, with the names of its members.
    pub stack: &'static str,
    /// Each element's count.
    pub counts: &'static str,
    /// What lies on each desk.
    pub desks: &'static str,
    /// What each worker handed in.
    pub shares: &'static str,
    /// The guests.
    pub guests: &'static str,
}

/// A snapshot, and the line of its first fault.
pub struct Row {
    /// What the snapshot has.
    pub members: Members,
    /// The line, without its end.
    pub line: &'static str,
}

/// The limits: 8 elements, 2 workers and 1 desk.
pub const LIMITS: &str = "{\"limits\":{\"population\":8,\"cache\":2,\"workers\":2,\"desks\":1,\
    \"buf\":2048,\"refs\":65535,\"tries\":64,\"start\":0,\"putrule\":0},";

/// Nothing is wrong: the elements 0 to 3 are on the stack, 4 in the first cache, 5 and 6 in a
/// packet of worker 2, 7 on the desk.
pub const HEALTHY: Members = Members {
    stack: "\"common\":[3,2,1,0]",
    counts: "[1,1,1,1,1,1,1,1]",
    desks: "[[{\"elem\":7,\"base\":null,\"off\":128,\"len\":0,\"buf\":2048}]]",
    shares: "[{\"worker\":1,\"cache\":[4],\"slots\":[]},{\"worker\":2,\"cache\":[],\
        \"slots\":[null,[{\"elem\":5,\"base\":null,\"off\":128,\"len\":9,\"buf\":2048},\
        {\"elem\":6,\"base\":null,\"off\":0,\"len\":1,\"buf\":2048}]]}]",
    guests: "[]",
};

/// The same with the stack as words.
pub const IN_WORDS: Members = Members {
    stack: "\"top\":4,\"length\":4,\"links\":[0,1,2,3,0,0,0,0]",
    ..HEALTHY
};

/// In each snapshot one member is wrong.
pub static FAULTS: &[Row] = &[
    Row {
        members: Members {
            stack: "\"top\":4,\"length\":4,\"links\":[0,1,2,3]",
            ..HEALTHY
        },
        line: "fault 101 BadShape: not a link for each element",
    },
    Row {
        members: Members {
            counts: "[1,1,1,1,1,1,1]",
            ..HEALTHY
        },
        line: "fault 101 BadShape: not a count for each element",
    },
    Row {
        members: Members {
            desks: "[]",
            ..HEALTHY
        },
        line: "fault 101 BadShape: not a place for each desk",
    },
    Row {
        members: Members {
            shares: "[{\"worker\":1,\"cache\":[4],\"slots\":[]}]",
            ..HEALTHY
        },
        line: "fault 101 BadShape: not a share for each worker",
    },
    Row {
        members: Members {
            shares: "[{\"worker\":1,\"cache\":[4],\"slots\":[]},{\"worker\":1,\"cache\":[],\
                \"slots\":[]}]",
            ..HEALTHY
        },
        line: "fault 101 BadShape: shares out of order, or of too many slots",
    },
    Row {
        members: Members {
            guests: "[{\"worker\":3,\"elem\":1}]",
            ..HEALTHY
        },
        line: "fault 101 BadShape: guests of no worker, or too many",
    },
    Row {
        members: Members {
            stack: "\"top\":99,\"length\":4,\"links\":[0,1,2,3,0,0,0,0]",
            ..HEALTHY
        },
        line: "fault 102 BadTop 99",
    },
    Row {
        members: Members {
            stack: "\"top\":4,\"length\":4,\"links\":[4,1,2,3,0,0,0,0]",
            ..HEALTHY
        },
        line: "fault 103 Loop",
    },
    Row {
        members: Members {
            stack: "\"top\":4,\"length\":5,\"links\":[0,1,2,3,0,0,0,0]",
            ..HEALTHY
        },
        line: "fault 104 BadLength word 5, walk 4",
    },
    Row {
        members: Members {
            shares: "[{\"worker\":1,\"cache\":[4],\"slots\":[]},{\"worker\":2,\"cache\":[99],\
                \"slots\":[null,[{\"elem\":5,\"base\":null,\"off\":128,\"len\":0,\"buf\":2048},\
                {\"elem\":6,\"base\":null,\"off\":128,\"len\":0,\"buf\":2048}]]}]",
            ..HEALTHY
        },
        line: "fault 105 BadElem 99: at 0 in the cache of worker 2",
    },
    Row {
        members: Members {
            shares: "[{\"worker\":1,\"cache\":[4],\"slots\":[]},{\"worker\":2,\"cache\":[],\
                \"slots\":[[{\"elem\":5,\"base\":8,\"off\":128,\"len\":0,\"buf\":2048},\
                {\"elem\":6,\"base\":null,\"off\":128,\"len\":0,\"buf\":2048}]]}]",
            ..HEALTHY
        },
        line: "fault 105 BadElem 8: base of segment 0 of packet 2 0",
    },
    Row {
        members: Members {
            shares: "[{\"worker\":1,\"cache\":[4],\"slots\":[[{\"elem\":5,\"base\":null,\
                \"off\":2000,\"len\":49,\"buf\":2048}]]},{\"worker\":2,\"cache\":[],\
                \"slots\":[[{\"elem\":6,\"base\":null,\"off\":128,\"len\":0,\"buf\":2048}]]}]",
            ..HEALTHY
        },
        line: "fault 106 BadPacket: packet 1 0",
    },
    Row {
        members: Members {
            desks: "[[]]",
            ..HEALTHY
        },
        line: "fault 106 BadPacket: desk 0",
    },
    Row {
        members: Members {
            shares: "[{\"worker\":1,\"cache\":[4],\"slots\":[[{\"elem\":5,\"base\":null,\
                \"off\":128,\"len\":0,\"buf\":2048}]]},{\"worker\":2,\"cache\":[],\
                \"slots\":[null,[{\"elem\":6,\"base\":null,\"off\":128,\"len\":0,\"buf\":2048},\
                {\"elem\":5,\"base\":null,\"off\":128,\"len\":0,\"buf\":2048}]]}]",
            ..HEALTHY
        },
        line: "fault 107 DoubleHeader element 5: segment 0 of packet 1 0, segment 1 of packet 2 1",
    },
    Row {
        members: Members {
            shares: "[{\"worker\":1,\"cache\":[4,1],\"slots\":[]},{\"worker\":2,\"cache\":[],\
                \"slots\":[[{\"elem\":5,\"base\":null,\"off\":128,\"len\":0,\"buf\":2048},\
                {\"elem\":6,\"base\":null,\"off\":128,\"len\":0,\"buf\":2048}]]}]",
            ..HEALTHY
        },
        line: "fault 108 Doubled element 1: at 2 on the stack, at 1 in the cache of worker 1",
    },
    Row {
        members: Members {
            shares: "[{\"worker\":1,\"cache\":[4],\"slots\":[]},{\"worker\":2,\"cache\":[],\
                \"slots\":[[{\"elem\":5,\"base\":3,\"off\":128,\"len\":0,\"buf\":2048},\
                {\"elem\":6,\"base\":null,\"off\":128,\"len\":0,\"buf\":2048}]]}]",
            ..HEALTHY
        },
        line: "fault 108 Doubled element 3: at 0 on the stack, base of segment 0 of packet 2 0",
    },
    Row {
        members: Members {
            guests: "[{\"worker\":2,\"elem\":4}]",
            ..HEALTHY
        },
        line: "fault 108 Doubled element 4: at 0 in the cache of worker 1, guest of worker 2",
    },
    Row {
        members: Members {
            desks: "[null]",
            ..HEALTHY
        },
        line: "fault 109 Lost element 7",
    },
    Row {
        members: Members {
            counts: "[1,1,1,1,2,1,1,1]",
            ..HEALTHY
        },
        line: "fault 110 BadCount element 4: count 2, held 0",
    },
    Row {
        members: Members {
            counts: "[1,1,1,1,1,2,1,1]",
            ..HEALTHY
        },
        line: "fault 110 BadCount element 5: count 2, held 1",
    },
];

/// The text of a snapshot.
pub fn written(alloc: Global, limits: &str, members: &Members) -> Result<String, AllocError> {
    let Members {
        stack,
        counts,
        desks,
        shares,
        guests,
    } = *members;
    format!(in alloc;
        "{limits}{stack},\"counts\":{counts},\"desks\":{desks},\"shares\":{shares},\
        \"guests\":{guests},\"foreign\":false}}"
    )
}
