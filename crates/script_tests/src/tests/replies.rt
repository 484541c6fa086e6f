//! Replies, each with the line that is printed for it.

use super::ReplyRow;
use commons::refusal::Refusal;
use mbuf::acts::Reply;
use mbuf::freed::Freed;
use mempool::put::Put;

/// A reply can't stand in a constant, so a function gives the rows.
pub(super) fn rows() -> [ReplyRow; 8] {
    [
        ("2: ok 65533\n", 2, Reply::Allocated(7, 65_533)),
        (
            "3: ok back 2 flushed 10\n",
            3,
            Reply::Freed(Freed {
                back: 2,
                flushed: 10,
                put_off: None,
            }),
        ),
        (
            "4: ok back 2 flushed 10 putoff 12 HeadSpent\n",
            4,
            Reply::Freed(Freed {
                back: 2,
                flushed: 10,
                put_off: Some((12, Refusal::HeadSpent)),
            }),
        ),
        (
            "5: refused 3 NoEntries\n",
            5,
            Reply::Refused(Refusal::NoEntries),
        ),
        ("6: ok kept\n", 6, Reply::Put(Put::Kept)),
        ("7: ok flushed 65534\n", 7, Reply::Put(Put::Flushed(65_534))),
        (
            "8: ok putoff 10 Contended\n",
            8,
            Reply::Put(Put::PutOff(10, Refusal::Contended)),
        ),
        (
            "4294967295: refused 23 SamePacket\n",
            4_294_967_295,
            Reply::Refused(Refusal::SamePacket),
        ),
    ]
}
