//! Scripts of steps, and what they print.

use commons::refusal::Refusal;

/// A name, a script and its text.
pub(super) type Row = (&'static str, &'static str, &'static str);

/// A row with all that a script can print.
pub(super) const FOR_MEMORY: Row = (
    "handed over, and a count still 0",
    "pool 2 workers 2 desks 1\n\
        loadlength\n\
        reserve 2 2\n\
        loadhead\n\
        loadlink 0\n\
        loadlink 1\n\
        cut\n\
        claim 0\n\
        claim 1\n\
        sole 0\n\
        raise 0 1\n\
        hold 0\n\
        putin 0 1>0\n\
        sole 1\n\
        2: seize 0\n\
        open 0\n\
        sole 1\n\
        2: seize 0\n\
        1: seize 0\n\
        2: takeout 0\n\
        2: clear 0\n\
        1: solefree 0\n\
        2: solefree 0\n\
        1: lower 0\n\
        2: lower 0\n",
    "2: value 2\n\
        3: won\n\
        4: head 0 0\n\
        5: link 1\n\
        6: link -\n\
        7: won 0 1\n\
        8: value 1\n\
        9: value 1\n\
        10: value 1\n\
        11: won\n\
        12: won\n\
        13: done\n\
        14: value 1\n\
        15: lost 1\n\
        16: done\n\
        17: refused 21 StepRefused\n\
        18: won\n\
        19: lost 3\n\
        20: packet 1>0\n\
        21: done\n\
        22: value 2\n\
        23: value 2\n\
        24: value 2\n\
        25: value 1\n\
        head - 1\n\
        length 0\n\
        common 0:\n\
        view 1 credit 0\n\
        hand 1 0:\n\
        holds 1 0:\n\
        view 2 credit 0\n\
        hand 2 1: 0\n\
        holds 2 1: 1\n\
        desk 0 phase 0\n\
        count 0 0\n",
);

pub(super) const ROWS: &[Row] = &[
    (
        "stale exchange",
        // The text of the file examples/aba.script.
        "# Worker 1 reserves one element, sees element 0 on top and 1 behind it, and stops.\n\
            pool 3 workers 2\n\
            1: loadlength\n\
            1: reserve 3 1\n\
            1: loadhead\n\
            1: loadlink 0\n\
            # Worker 2 takes elements 0 and 1, and puts 0 back: the same top stands there again.\n\
            2: loadlength\n\
            2: reserve 2 2\n\
            2: loadhead\n\
            2: loadlink 0\n\
            2: loadlink 1\n\
            2: cut\n\
            2: loadhead\n\
            2: storelink 0 2\n\
            2: push\n\
            # Worker 1's exchange finds another count, and loses. With the same count it would put\n\
            # element 1 on top, which worker 2 has in its hand.\n\
            1: cut\n",
        "3: value 3\n\
            4: won\n\
            5: head 0 0\n\
            6: link 1\n\
            8: value 2\n\
            9: won\n\
            10: head 0 0\n\
            11: link 1\n\
            12: link 2\n\
            13: won 0 1\n\
            14: head 2 1\n\
            15: done\n\
            16: won\n\
            19: lost head 0 2\n\
            head 0 2\n\
            length 0\n\
            common 2: 0 2\n\
            view 1 credit 1\n\
            hand 1 0:\n\
            holds 1 0:\n\
            view 2 credit 1\n\
            hand 2 1: 1\n\
            holds 2 0:\n",
    ),
    (
        "length lags",
        "pool 1 workers 2\n\
            1: loadlength\n\
            1: reserve 1 1\n\
            1: loadhead\n\
            1: loadlink 0\n\
            1: cut\n\
            1: loadhead\n\
            1: storelink 0 -\n\
            1: push\n\
            2: loadlength\n\
            2: reserve 1 1\n\
            2: reserve 0 1\n\
            1: add 1\n\
            2: reserve 1 1\n",
        "2: value 1\n\
            3: won\n\
            4: head 0 0\n\
            5: link -\n\
            6: won 0\n\
            7: head - 1\n\
            8: done\n\
            9: won\n\
            10: value 0\n\
            11: lost 0\n\
            12: refused 21 StepRefused\n\
            13: done\n\
            14: won\n\
            head 0 2\n\
            length 0\n\
            common 1: 0\n\
            view 1 credit 0\n\
            hand 1 0:\n\
            holds 1 0:\n\
            view 2 credit 1\n\
            hand 2 0:\n\
            holds 2 0:\n",
    ),
    (
        "length before the add",
        "pool 1 workers 2\n\
            loadlength\n\
            reserve 1 1\n\
            loadhead\n\
            loadlink 0\n\
            cut\n\
            loadhead\n\
            storelink 0 -\n\
            push\n",
        "2: value 1\n\
            3: won\n\
            4: head 0 0\n\
            5: link -\n\
            6: won 0\n\
            7: head - 1\n\
            8: done\n\
            9: won\n\
            head 0 2\n\
            length 0\n\
            common 1: 0\n\
            view 1 credit 1\n\
            hand 1 0:\n\
            holds 1 0:\n\
            view 2 credit 0\n\
            hand 2 0:\n\
            holds 2 0:\n",
    ),
    (
        "stopped worker",
        "pool 3 workers 2\n\
            1: loadlength\n\
            1: reserve 3 1\n\
            2: loadlength\n\
            2: reserve 2 2\n\
            2: loadhead\n\
            2: loadlink 0\n\
            2: loadlink 1\n\
            2: cut\n",
        "2: value 3\n\
            3: won\n\
            4: value 2\n\
            5: won\n\
            6: head 0 0\n\
            7: link 1\n\
            8: link 2\n\
            9: won 0 1\n\
            head 2 1\n\
            length 0\n\
            common 1: 2\n\
            view 1 credit 1\n\
            hand 1 0:\n\
            holds 1 0:\n\
            view 2 credit 0\n\
            hand 2 2: 0 1\n\
            holds 2 0:\n",
    ),
    (
        "spent count",
        "pool 2 start 1099511627775\n\
            loadlength\n\
            reserve 2 1\n\
            loadhead\n\
            loadlink 0\n\
            cut\n\
            add 1\n",
        "2: value 2\n\
            3: won\n\
            4: head 0 1099511627775\n\
            5: link 1\n\
            6: refused 21 StepRefused\n\
            7: done\n\
            head 0 1099511627775\n\
            length 2\n\
            common 2: 0 1\n\
            view 1 credit 0\n\
            hand 1 0:\n\
            holds 1 0:\n",
    ),
    (
        "handed over by steps",
        "pool 2 workers 2 desks 1\n\
            loadlength\n\
            reserve 2 2\n\
            loadhead\n\
            loadlink 0\n\
            loadlink 1\n\
            cut\n\
            claim 0\n\
            claim 1\n\
            sole 0\n\
            raise 0 1\n\
            hold 0\n\
            putin 0 1>0\n\
            sole 1\n\
            2: seize 0\n\
            open 0\n\
            sole 1\n\
            2: seize 0\n\
            1: seize 0\n\
            2: takeout 0\n\
            2: clear 0\n\
            1: solefree 0\n\
            2: solefree 0\n\
            1: lower 0\n\
            2: lower 0\n\
            2: reset 0\n",
        "2: value 2\n\
            3: won\n\
            4: head 0 0\n\
            5: link 1\n\
            6: link -\n\
            7: won 0 1\n\
            8: value 1\n\
            9: value 1\n\
            10: value 1\n\
            11: won\n\
            12: won\n\
            13: done\n\
            14: value 1\n\
            15: lost 1\n\
            16: done\n\
            17: refused 21 StepRefused\n\
            18: won\n\
            19: lost 3\n\
            20: packet 1>0\n\
            21: done\n\
            22: value 2\n\
            23: value 2\n\
            24: value 2\n\
            25: value 1\n\
            26: done\n\
            head - 1\n\
            length 0\n\
            common 0:\n\
            view 1 credit 0\n\
            hand 1 0:\n\
            holds 1 0:\n\
            view 2 credit 0\n\
            hand 2 1: 0\n\
            holds 2 1: 1\n\
            desk 0 phase 0\n",
    ),
    FOR_MEMORY,
    (
        "a full desk shows its packet",
        "pool 2 workers 2 desks 1\n\
            loadlength\n\
            reserve 2 2\n\
            loadhead\n\
            loadlink 0\n\
            loadlink 1\n\
            cut\n\
            claim 0\n\
            claim 1\n\
            sole 0\n\
            raise 0 1\n\
            hold 0\n\
            putin 0 1>0\n\
            sole 1\n\
            2: seize 0\n\
            open 0\n",
        "2: value 2\n\
            3: won\n\
            4: head 0 0\n\
            5: link 1\n\
            6: link -\n\
            7: won 0 1\n\
            8: value 1\n\
            9: value 1\n\
            10: value 1\n\
            11: won\n\
            12: won\n\
            13: done\n\
            14: value 1\n\
            15: lost 1\n\
            16: done\n\
            head - 1\n\
            length 0\n\
            common 0:\n\
            view 1 credit 0\n\
            hand 1 0:\n\
            holds 1 1: 0\n\
            view 2 credit 0\n\
            hand 2 0:\n\
            holds 2 0:\n\
            desk 0 phase 2: 1>0\n\
            count 0 2\n",
    ),
    (
        "a hand ascends, and holds with repeats",
        "pool 3\n\
            loadlength\n\
            reserve 3 3\n\
            loadhead\n\
            loadlink 0\n\
            loadlink 1\n\
            loadlink 2\n\
            cut\n\
            storelink 2 -\n\
            claim 2\n\
            claim 0\n\
            raise 2 1\n\
            raise 0 1\n\
            raise 2 2\n\
            loadhead\n",
        "2: value 3\n\
            3: won\n\
            4: head 0 0\n\
            5: link 1\n\
            6: link 2\n\
            7: link -\n\
            8: won 0 1 2\n\
            9: done\n\
            10: value 1\n\
            11: value 1\n\
            12: won\n\
            13: won\n\
            14: won\n\
            15: head - 1\n\
            head - 1\n\
            length 0\n\
            common 0:\n\
            view 1 credit 0\n\
            hand 1 1: 1\n\
            holds 1 5: 0 0 2 2 2\n\
            count 0 2\n\
            count 2 3\n",
    ),
    (
        "what the pool hasn't is refused",
        "pool 3 desks 1\n\
            claim 0\n\
            claim -\n\
            sole -\n\
            solefree -\n\
            raise - 1\n\
            lower -\n\
            reset -\n\
            loadlink -\n\
            storelink - 0\n\
            storelink 0 -\n\
            loadlink 18446744073709551615\n\
            claim 3\n\
            claim 4294967296\n\
            claim 18446744073709551615\n\
            hold 1\n\
            hold 65535\n\
            seize 65535\n\
            hold 0\n\
            putin 0 3\n\
            putin 0 4294967296\n\
            putin 0 0>18446744073709551615\n\
            putin 65535 0\n\
            putin 0 0\n\
            open 0\n\
            loadlength\n",
        "2: refused 21 StepRefused\n\
            3: refused 21 StepRefused\n\
            4: refused 21 StepRefused\n\
            5: refused 21 StepRefused\n\
            6: refused 21 StepRefused\n\
            7: refused 21 StepRefused\n\
            8: refused 21 StepRefused\n\
            9: refused 21 StepRefused\n\
            10: refused 21 StepRefused\n\
            11: refused 21 StepRefused\n\
            12: refused 21 StepRefused\n\
            13: refused 21 StepRefused\n\
            14: refused 21 StepRefused\n\
            15: refused 21 StepRefused\n\
            16: refused 21 StepRefused\n\
            17: refused 21 StepRefused\n\
            18: refused 21 StepRefused\n\
            19: won\n\
            20: refused 21 StepRefused\n\
            21: refused 21 StepRefused\n\
            22: refused 21 StepRefused\n\
            23: refused 21 StepRefused\n\
            24: done\n\
            25: refused 21 StepRefused\n\
            26: value 3\n\
            head 0 0\n\
            length 3\n\
            common 3: 0 1 2\n\
            view 1 credit 0\n\
            hand 1 0:\n\
            holds 1 0:\n\
            desk 0 phase 1\n",
    ),
    (
        "no step",
        "\n\
            # nothing\n\
              pool 2 workers 2 desks 2\n",
        "head 0 0\n\
            length 2\n\
            common 2: 0 1\n\
            view 1 credit 0\n\
            hand 1 0:\n\
            holds 1 0:\n\
            view 2 credit 0\n\
            hand 2 0:\n\
            holds 2 0:\n\
            desk 0 phase 0\n\
            desk 1 phase 0\n",
    ),
];

/// A name, a text that isn't a script of steps, and its refusal.
pub(super) type FaultyRow = (&'static str, &'static str, Refusal);

pub(super) const FAULTY: &[FaultyRow] = &[
    ("an empty text", "", Refusal::ScriptFault(1)),
    ("no pool", "pool 0\nloadhead\n", Refusal::BadPool),
    (
        "an element of 2^64",
        "pool 1\nclaim 18446744073709551616\n",
        Refusal::ScriptFault(2),
    ),
    (
        "a desk of 65,536",
        "pool 1 desks 1\nloadhead\nhold 65536\n",
        Refusal::ScriptFault(3),
    ),
    (
        "the end inside a segment",
        "pool 2 desks 1\nputin 0 1>-\n",
        Refusal::ScriptFault(2),
    ),
    ("a command", "pool 1\nalloc a\n", Refusal::ScriptFault(2)),
    (
        "a worker that the pool hasn't",
        "pool 1\n2: loadhead\n",
        Refusal::ScriptFault(2),
    ),
];
