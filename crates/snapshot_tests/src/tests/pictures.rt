//! A pool, and its picture: with each element, and as sums.

use commons::refusal::Refusal;
use pool_picture::pool_dot;
use pool_statement::statement::Statement;
use snapshot::audit::audit;
use snapshot::snapshot::Snapshot;
use snapshot_json::read_snapshot;
use snapshot_rows::LIMITS;
use std::alloc::Global;

/// The elements 3 and 2 are on the stack, 4 in the first cache, 0 and 1 in the second. Worker 1 has a
/// clone, element 6 with the buffer of 5, which is worker 2's packet; 7 lies on the desk.
const MEMBERS: &str =
    "\"common\":[3,2],\"counts\":[1,1,1,1,1,2,1,1],\"desks\":[[{\"elem\":7,\"base\":null,\
    \"off\":128,\"len\":0,\"buf\":2048}]],\"shares\":[{\"worker\":1,\"cache\":[4],\
    \"slots\":[[{\"elem\":6,\"base\":5,\"off\":128,\"len\":9,\"buf\":2048}]]},{\"worker\":2,\
    \"cache\":[0,1],\"slots\":[null,[{\"elem\":5,\"base\":null,\"off\":128,\"len\":9,\
    \"buf\":2048}]]}],\"guests\":[],\"foreign\":false}";

/// How many elements a pool is said to have, and the picture of the pool above then.
pub(super) const PICTURES: &[(u64, &str)] = &[
    (
        300,
        "digraph pool {\n\
        \x20 rankdir=LR;\n\
        \x20 node [shape=box, fontname=\"monospace\"];\n\
        \x20 stack [label=\"stack: 2\\n3 2\"];\n\
        \x20 cache_1 [label=\"cache 1: 1\\n4\"];\n\
        \x20 cache_2 [label=\"cache 2: 2\\n0 1\"];\n\
        \x20 packet_1_0 [label=\"packet 1 0\"];\n\
        \x20 packet_1_0 -> e6;\n\
        \x20 e6 -> e5 [style=dashed];\n\
        \x20 packet_2_1 [label=\"packet 2 1\"];\n\
        \x20 packet_2_1 -> e5;\n\
        \x20 desk_0 [label=\"desk 0\"];\n\
        \x20 desk_0 -> e7;\n\
        \x20 e5 [shape=ellipse, label=\"5\\ncount 2\"];\n\
        \x20 e6 [shape=ellipse, label=\"6\\ncount 1\"];\n\
        \x20 e7 [shape=ellipse, label=\"7\\ncount 1\"];\n\
        }\n",
    ),
    (
        301,
        "digraph pool {\n\
        \x20 rankdir=LR;\n\
        \x20 node [shape=box, fontname=\"monospace\"];\n\
        \x20 stack [label=\"stack: 2\"];\n\
        \x20 cache_1 [label=\"cache 1: 1\"];\n\
        \x20 cache_2 [label=\"cache 2: 2\"];\n\
        \x20 packets [label=\"packets: 2\"];\n\
        \x20 desks [label=\"packets on desks: 1\"];\n\
        \x20 held [label=\"held elements: 3\"];\n\
        }\n",
    ),
];

/// The statement of a snapshot.
fn statement_of(alloc: Global, snapshot: &Snapshot) -> Result<Statement, Refusal> {
    snapshot.limits.check()?;
    audit(alloc, snapshot).map_err(|_| Refusal::OutOfMemory)
}

/// The picture of the pool above, where it is said to have so many elements.
pub(super) fn picture_of(alloc: Global, population: u64) -> Result<Vec<u8>, Refusal> {
    let Ok(text) = format!(in alloc; "{LIMITS}{MEMBERS}") else {
        return Err(Refusal::OutOfMemory);
    };
    match read_snapshot(alloc, text.as_bytes()) {
        Ok(snapshot) => {
            let mut statement = statement_of(alloc, &snapshot)?;
            statement.population = population;
            pool_dot(alloc, &statement)
        }
        Err(_) => Err(Refusal::OutOfMemory),
    }
}
