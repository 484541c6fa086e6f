//! Scripts that are too long to write out, and what their replays print.

use crate::BuiltRow;
use crate::parts::{Field, Part};

/// A pool of 300, and as many packets made as a table has slots, and one more: `p0` to `p256`.
const FULL_TABLE: Part = Part::Each(257, &[Field("alloc p", 0, 1)], "\n");

/// What is printed for it before the 258th line.
const FULL_REPLIES: Part = Part::Each(256, &[Field("", 2, 1), Field(": ok ", 0, 1)], "\n");

/// The slot of each packet, and the packet's element.
const SLOT_AND_ELEMENT: &[Field] = &[Field("packet 1 ", 0, 1), Field(" segs 1 len 0: ", 0, 1)];

/// The end of the line of a fresh packet.
const FRESH: &str = "@128+0/2048\n";

/// 32 names after a bulk.
const NAMES_OF_32: Part = Part::Each(32, &[Field(" p", 0, 1)], "");

/// All rows.
pub fn rows() -> &'static [BuiltRow] {
    ROWS
}

const ROWS: &[BuiltRow] = &[
    // 33 packets, of which the others are chained onto the first.
    (
        "thirty three segments",
        &[
            Part::Text("pool 33\n"),
            Part::Each(33, &[Field("alloc p", 0, 1)], "\n"),
            Part::Each(32, &[Field("chain p0 p", 1, 1)], "\n"),
        ],
        &[
            Part::Each(33, &[Field("", 2, 1), Field(": ok ", 0, 1)], "\n"),
            Part::Each(31, &[Field("", 35, 1), Field(": ok ", 2, 1)], " 0\n"),
            Part::Text("66: refused 7 TooManySegs\npopulation 33\navailable 0\nin use 33\n"),
            Part::Text("common 0:\ncache 1 0:\npacket 1 0 segs 32 len 0:"),
            Part::Each(32, &[Field(" ", 0, 1)], "@128+0/2048"),
            Part::Text("\npacket 1 32 segs 1 len 0: 32@128+0/2048\n"),
            Part::Each(33, &[Field("held ", 0, 1)], " count 1: 1\n"),
        ],
    ),
    // A bulk of 256, a packet that has no slot, a chain, and a packet in the slot that it left.
    (
        "packet table full",
        &[
            Part::Text("pool 300\nbulk"),
            Part::Each(256, &[Field(" p", 0, 1)], ""),
            Part::Text("\nalloc z\nchain p0 p1\nalloc y\n"),
        ],
        &[
            Part::Text("2: ok"),
            Part::Each(256, &[Field(" ", 0, 1)], ""),
            Part::Text("\n3: refused 14 PacketsFull\n4: ok 2 0\n5: ok 256\n"),
            Part::Text("population 300\navailable 43\nin use 257\ncommon 43:"),
            Part::Each(43, &[Field(" ", 257, 1)], ""),
            Part::Text("\ncache 1 0:\npacket 1 0 segs 2 len 0: 0@128+0/2048 1@128+0/2048\n"),
            Part::Text("packet 1 1 segs 1 len 0: 256@128+0/2048\n"),
            Part::Each(
                254,
                &[Field("packet 1 ", 2, 1), Field(" segs 1 len 0: ", 2, 1)],
                FRESH,
            ),
            Part::Each(257, &[Field("held ", 0, 1)], " count 1: 1\n"),
        ],
    ),
    (
        "a freed slot of a full table is filled again",
        &[
            Part::Text("pool 300\n"),
            FULL_TABLE,
            Part::Text("free p7\nalloc q\n"),
        ],
        &[
            FULL_REPLIES,
            Part::Text("258: refused 14 PacketsFull\n259: ok back 1 flushed 1\n260: ok 7\n"),
            Part::Text("population 300\navailable 44\nin use 256\ncommon 44:"),
            Part::Each(44, &[Field(" ", 256, 1)], ""),
            Part::Text("\ncache 1 0:\n"),
            Part::Each(256, SLOT_AND_ELEMENT, FRESH),
            Part::Each(256, &[Field("held ", 0, 1)], " count 1: 1\n"),
        ],
    ),
    // The last element that went back is the first that is taken, and goes into the lowest slot.
    (
        "the lowest free slot is filled first",
        &[
            Part::Text("pool 300\n"),
            FULL_TABLE,
            Part::Text("free p3\nfree p7\nalloc q\nalloc r\n"),
        ],
        &[
            FULL_REPLIES,
            Part::Text("258: refused 14 PacketsFull\n259: ok back 1 flushed 1\n"),
            Part::Text("260: ok back 1 flushed 1\n261: ok 7\n262: ok 3\n"),
            Part::Text("population 300\navailable 44\nin use 256\ncommon 44:"),
            Part::Each(44, &[Field(" ", 256, 1)], ""),
            Part::Text("\ncache 1 0:\n"),
            Part::Each(3, SLOT_AND_ELEMENT, FRESH),
            Part::Text("packet 1 3 segs 1 len 0: 7@128+0/2048\n"),
            Part::Each(
                3,
                &[Field("packet 1 ", 4, 1), Field(" segs 1 len 0: ", 4, 1)],
                FRESH,
            ),
            Part::Text("packet 1 7 segs 1 len 0: 3@128+0/2048\n"),
            Part::Each(
                248,
                &[Field("packet 1 ", 8, 1), Field(" segs 1 len 0: ", 8, 1)],
                FRESH,
            ),
            Part::Each(256, &[Field("held ", 0, 1)], " count 1: 1\n"),
        ],
    ),
    (
        "ten thousand commands are replayed",
        &[
            Part::Text("pool 65534\n"),
            Part::Each(
                5_000,
                &[Field("alloc a", 0, 1), Field("\nfree a", 0, 1)],
                "\n",
            ),
        ],
        &[
            Part::Each(
                5_000,
                &[Field("", 2, 2), Field(": ok 0\n", 3, 2)],
                ": ok back 1 flushed 1\n",
            ),
            Part::Text("population 65534\navailable 65534\nin use 0\ncommon 65534:"),
            Part::Each(65_534, &[Field(" ", 0, 1)], ""),
            Part::Text("\ncache 1 0:\n"),
        ],
    ),
    (
        "limits",
        &[Part::Text("pool 65535\n")],
        &[
            Part::Text("population 65535\navailable 65535\nin use 0\ncommon 65535:"),
            Part::Each(65_535, &[Field(" ", 0, 1)], ""),
            Part::Text("\ncache 1 0:\n"),
        ],
    ),
    // A packet of worker 2 on desk 0, and a full table of worker 1, who asks for it.
    (
        "take into a full table",
        &[
            Part::Text("pool 300 workers 2 desks 1\n2: alloc z\n2: offer z 0\nbulk"),
            Part::Each(256, &[Field(" p", 0, 1)], ""),
            Part::Text("\ntake 0 y\n"),
        ],
        &[
            Part::Text("2: ok 0\n3: ok\n4: ok"),
            Part::Each(256, &[Field(" ", 1, 1)], ""),
            Part::Text("\n5: refused 14 PacketsFull\npopulation 300\navailable 43\nin use 257\n"),
            Part::Text("common 43:"),
            Part::Each(43, &[Field(" ", 257, 1)], ""),
            Part::Text("\ncache 1 0:\ncache 2 0:\n"),
            Part::Each(
                256,
                &[Field("packet 1 ", 0, 1), Field(" segs 1 len 0: ", 1, 1)],
                FRESH,
            ),
            Part::Text("desk 0 segs 1 len 0: 0@128+0/2048\nheld 0 count 1: d0\n"),
            Part::Each(256, &[Field("held ", 1, 1)], " count 1: 1\n"),
        ],
    ),
    // A packet of 32 segments and its clone. The clone goes from each worker over the desk below
    // its number to the next, and from worker 64 to worker 1; then the same way back.
    (
        "a packet of 32 segments goes over all desks and back",
        &[
            Part::Text("pool 65 workers 64 desks 64\nbulk"),
            NAMES_OF_32,
            Part::Text("\n"),
            Part::Each(31, &[Field("chain p0 p", 1, 1)], "\n"),
            Part::Text("append p0 7\nclone p0 c\n1: offer c 0\n2: take 0 there\n"),
            Part::Each(
                62,
                &[
                    Field("", 2, 1),
                    Field(": offer there ", 1, 1),
                    Field("\n", 3, 1),
                    Field(": take ", 1, 1),
                ],
                " there\n",
            ),
            Part::Text("64: offer there 63\n1: take 63 there\n"),
            Part::Text("1: offer there 63\n64: take 63 back\n"),
            Part::Each(
                63,
                &[
                    Field("", 64, -1),
                    Field(": offer back ", 62, -1),
                    Field("\n", 63, -1),
                    Field(": take ", 62, -1),
                ],
                " back\n",
            ),
        ],
        &[
            Part::Text("2: ok"),
            Part::Each(32, &[Field(" ", 0, 1)], ""),
            Part::Each(31, &[Field("\n", 3, 1), Field(": ok ", 2, 1)], " 0"),
            Part::Text("\n34: ok 7\n35: ok"),
            Part::Each(32, &[Field(" ", 32, 1)], ""),
            Part::Text("\n"),
            Part::Each(
                128,
                &[Field("", 36, 2), Field(": ok\n", 37, 2)],
                ": ok 32 7\n",
            ),
            Part::Text("population 65\navailable 1\nin use 64\ncommon 1: 64\n"),
            Part::Each(64, &[Field("cache ", 1, 1)], " 0:\n"),
            // Of the packet the elements from 0 on, and of its clone those from 32 on.
            Part::Text("packet 1 0 segs 32 len 7:"),
            Part::Each(31, &[Field(" ", 0, 1)], "@128+0/2048"),
            Part::Text(" 31@128+7/2048\npacket 1 1 segs 32 len 7:"),
            Part::Each(31, &[Field(" ", 32, 1), Field(">", 0, 1)], "@128+0/2048"),
            Part::Text(" 63>31@128+7/2048\n"),
            Part::Each(32, &[Field("held ", 0, 1)], " count 2: 1 1\n"),
            Part::Each(32, &[Field("held ", 32, 1)], " count 1: 1\n"),
        ],
    ),
];
