//! Texts at the bounds of a line and of a script.

use super::LongRow;
use commons::refusal::Refusal::ScriptFault;

pub(super) const ROWS: &[LongRow] = &[
    (
        "a line has 8192 bytes at most",
        "pool 3\n#",
        8_191,
        "x",
        "\n",
        8_200,
        None,
    ),
    (
        "a line of 8193 bytes",
        "pool 3\n#",
        8_192,
        "x",
        "\n",
        8_201,
        Some(ScriptFault(2)),
    ),
    (
        "a line of 8193 spaces",
        "pool 3\n",
        8_193,
        " ",
        "\n",
        8_201,
        Some(ScriptFault(2)),
    ),
    (
        "a script has 10000 command lines at most",
        "pool 3\n",
        10_000,
        "free a\n\n",
        "",
        80_007,
        None,
    ),
    (
        "10001 command lines",
        "pool 3\n",
        10_001,
        "free a\n\n",
        "",
        80_015,
        Some(ScriptFault(20_002)),
    ),
    (
        "10001 lines flush",
        "pool 3\n",
        10_001,
        "flush\n",
        "",
        60_013,
        Some(ScriptFault(10_002)),
    ),
    (
        "a script has 1048576 bytes at most",
        "pool 3\n#",
        1_048_568,
        "\n",
        "",
        1_048_576,
        None,
    ),
    (
        "1048577 bytes",
        "pool 3\n#",
        1_048_569,
        "\n",
        "",
        1_048_577,
        Some(ScriptFault(0)),
    ),
];
