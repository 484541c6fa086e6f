//! Scripts of steps in which worker 1 stops right after a step of each kind, and worker 2 then gets
//! one element and puts it back, and what they print.

/// A script of a pool of four elements, two workers and a desk. Each step stands with its answer in
/// a line of its own, as `cut = won 0`.
pub(super) struct Row {
    /// What worker 1 did last.
    pub(super) last: &'static str,
    /// The steps of worker 1, in two parts.
    pub(super) begun: &'static str,
    pub(super) then: &'static str,
    /// Those of worker 2 after them.
    pub(super) other: &'static str,
    /// What is printed behind the answers.
    pub(super) world: &'static str,
}

/// Worker 1 gets element 0.
const GOT: &str = "loadlength = value 4\n\
    reserve 4 1 = won\n\
    loadhead = head 0 0\n\
    loadlink 0 = link 1\n\
    cut = won 0\n";

/// Worker 2 gets element 0 and puts it back, when nothing is missing.
const GETS_0_OF_4: &str = "2: loadlength = value 4\n\
    2: reserve 4 1 = won\n\
    2: loadhead = head 0 0\n\
    2: loadlink 0 = link 1\n\
    2: cut = won 0\n\
    2: loadhead = head 1 1\n\
    2: storelink 0 1 = done\n\
    2: push = won\n\
    2: add 1 = done\n";

/// Worker 2 does so when worker 1 has reserved one.
const GETS_0_OF_3: &str = "2: loadlength = value 3\n\
    2: reserve 3 1 = won\n\
    2: loadhead = head 0 0\n\
    2: loadlink 0 = link 1\n\
    2: cut = won 0\n\
    2: loadhead = head 1 1\n\
    2: storelink 0 1 = done\n\
    2: push = won\n\
    2: add 1 = done\n";

/// Worker 2 gets element 1 and puts it back, when element 0 is out.
const GETS_1: &str = "2: loadlength = value 3\n\
    2: reserve 3 1 = won\n\
    2: loadhead = head 1 1\n\
    2: loadlink 1 = link 2\n\
    2: cut = won 1\n\
    2: loadhead = head 2 2\n\
    2: storelink 1 2 = done\n\
    2: push = won\n\
    2: add 1 = done\n";

/// Each element is on the list, and nothing is reserved.
const AS_OPENED: &str = "head 0 2\n\
    length 4\n\
    common 4: 0 1 2 3\n\
    view 1 credit 0\n\
    hand 1 0:\n\
    holds 1 0:\n\
    view 2 credit 0\n\
    hand 2 0:\n\
    holds 2 0:\n\
    desk 0 phase 0\n";

/// Each element is on the list, and worker 1 has reserved one.
const RESERVED: &str = "head 0 2\n\
    length 3\n\
    common 4: 0 1 2 3\n\
    view 1 credit 1\n\
    hand 1 0:\n\
    holds 1 0:\n\
    view 2 credit 0\n\
    hand 2 0:\n\
    holds 2 0:\n\
    desk 0 phase 0\n";

/// Worker 1 has element 0 in its hand.
const IN_HAND: &str = "head 1 3\n\
    length 3\n\
    common 3: 1 2 3\n\
    view 1 credit 0\n\
    hand 1 1: 0\n\
    holds 1 0:\n\
    view 2 credit 0\n\
    hand 2 0:\n\
    holds 2 0:\n\
    desk 0 phase 0\n";

/// Worker 1 holds element 0.
const HELD: &str = "head 1 3\n\
    length 3\n\
    common 3: 1 2 3\n\
    view 1 credit 0\n\
    hand 1 0:\n\
    holds 1 1: 0\n\
    view 2 credit 0\n\
    hand 2 0:\n\
    holds 2 0:\n\
    desk 0 phase 0\n";

/// Worker 1 holds element 0, and has the desk to fill.
const TO_FILL: &str = "head 1 3\n\
    length 3\n\
    common 3: 1 2 3\n\
    view 1 credit 0\n\
    hand 1 0:\n\
    holds 1 1: 0\n\
    view 2 credit 0\n\
    hand 2 0:\n\
    holds 2 0:\n\
    desk 0 phase 1\n";

/// Worker 1 holds element 0, and has seized the desk.
const SEIZED: &str = "head 1 3\n\
    length 3\n\
    common 3: 1 2 3\n\
    view 1 credit 0\n\
    hand 1 0:\n\
    holds 1 1: 0\n\
    view 2 credit 0\n\
    hand 2 0:\n\
    holds 2 0:\n\
    desk 0 phase 3\n";

/// Worker 1 stops after a step at the length, the head or a link.
pub(super) const LISTS: &[Row] = &[
    Row {
        last: "loads the length",
        begun: "",
        then: "loadlength = value 4\n",
        other: GETS_0_OF_4,
        world: AS_OPENED,
    },
    Row {
        last: "reserves",
        begun: "",
        then: "loadlength = value 4\n\
            reserve 4 1 = won\n",
        other: GETS_0_OF_3,
        world: RESERVED,
    },
    Row {
        last: "adds what it reserved",
        begun: "",
        then: "loadlength = value 4\n\
            reserve 4 1 = won\n\
            add 1 = done\n",
        other: GETS_0_OF_4,
        world: AS_OPENED,
    },
    Row {
        last: "loads the head",
        begun: "",
        then: "loadlength = value 4\n\
            reserve 4 1 = won\n\
            loadhead = head 0 0\n",
        other: GETS_0_OF_3,
        world: RESERVED,
    },
    Row {
        last: "loads a link",
        begun: "",
        then: "loadlength = value 4\n\
            reserve 4 1 = won\n\
            loadhead = head 0 0\n\
            loadlink 0 = link 1\n",
        other: GETS_0_OF_3,
        world: RESERVED,
    },
    Row {
        last: "cuts",
        begun: GOT,
        then: "",
        other: GETS_1,
        world: IN_HAND,
    },
    Row {
        last: "stores a link",
        begun: GOT,
        then: "loadhead = head 1 1\n\
            storelink 0 1 = done\n",
        other: GETS_1,
        world: IN_HAND,
    },
    Row {
        last: "pushes",
        begun: GOT,
        then: "loadhead = head 1 1\n\
            storelink 0 1 = done\n\
            push = won\n",
        other: "2: loadlength = value 3\n\
            2: reserve 3 1 = won\n\
            2: loadhead = head 0 2\n\
            2: loadlink 0 = link 1\n\
            2: cut = won 0\n\
            2: loadhead = head 1 3\n\
            2: storelink 0 1 = done\n\
            2: push = won\n\
            2: add 1 = done\n",
        world: "head 0 4\n\
            length 3\n\
            common 4: 0 1 2 3\n\
            view 1 credit 1\n\
            hand 1 0:\n\
            holds 1 0:\n\
            view 2 credit 0\n\
            hand 2 0:\n\
            holds 2 0:\n\
            desk 0 phase 0\n",
    },
];

/// Worker 1 stops after a step at an element's count.
pub(super) const COUNTS: &[Row] = &[
    Row {
        last: "claims",
        begun: GOT,
        then: "claim 0 = value 1\n",
        other: GETS_1,
        world: HELD,
    },
    Row {
        last: "reads a count to free",
        begun: GOT,
        then: "claim 0 = value 1\n\
            solefree 0 = value 1\n",
        other: GETS_1,
        world: IN_HAND,
    },
    Row {
        last: "raises",
        begun: GOT,
        then: "claim 0 = value 1\n\
            sole 0 = value 1\n\
            raise 0 1 = won\n",
        other: GETS_1,
        world: "head 1 3\n\
            length 3\n\
            common 3: 1 2 3\n\
            view 1 credit 0\n\
            hand 1 0:\n\
            holds 1 2: 0 0\n\
            view 2 credit 0\n\
            hand 2 0:\n\
            holds 2 0:\n\
            desk 0 phase 0\n\
            count 0 2\n",
    },
    Row {
        last: "lowers to 0",
        begun: GOT,
        then: "claim 0 = value 1\n\
            lower 0 = value 1\n",
        other: GETS_1,
        world: "head 1 3\n\
            length 3\n\
            common 3: 1 2 3\n\
            view 1 credit 0\n\
            hand 1 1: 0\n\
            holds 1 0:\n\
            view 2 credit 0\n\
            hand 2 0:\n\
            holds 2 0:\n\
            desk 0 phase 0\n\
            count 0 0\n",
    },
    Row {
        last: "resets",
        begun: GOT,
        then: "claim 0 = value 1\n\
            lower 0 = value 1\n\
            reset 0 = done\n",
        other: GETS_1,
        world: IN_HAND,
    },
];

/// Worker 1 stops after a step at a desk.
pub(super) const DESKS: &[Row] = &[
    Row {
        last: "holds a desk",
        begun: GOT,
        then: "claim 0 = value 1\n\
            hold 0 = won\n",
        other: GETS_1,
        world: TO_FILL,
    },
    Row {
        last: "puts a packet in",
        begun: GOT,
        then: "claim 0 = value 1\n\
            hold 0 = won\n\
            putin 0 0 = done\n",
        other: GETS_1,
        world: TO_FILL,
    },
    Row {
        last: "opens",
        begun: GOT,
        then: "claim 0 = value 1\n\
            hold 0 = won\n\
            putin 0 0 = done\n\
            open 0 = done\n",
        other: GETS_1,
        world: "head 1 3\n\
            length 3\n\
            common 3: 1 2 3\n\
            view 1 credit 0\n\
            hand 1 0:\n\
            holds 1 0:\n\
            view 2 credit 0\n\
            hand 2 0:\n\
            holds 2 0:\n\
            desk 0 phase 2: 0\n",
    },
    Row {
        last: "seizes",
        begun: GOT,
        then: "claim 0 = value 1\n\
            hold 0 = won\n\
            putin 0 0 = done\n\
            open 0 = done\n\
            seize 0 = won\n",
        other: GETS_1,
        world: SEIZED,
    },
    Row {
        last: "takes the packet out",
        begun: GOT,
        then: "claim 0 = value 1\n\
            hold 0 = won\n\
            putin 0 0 = done\n\
            open 0 = done\n\
            seize 0 = won\n\
            takeout 0 = packet 0\n",
        other: GETS_1,
        world: SEIZED,
    },
    Row {
        last: "clears",
        begun: GOT,
        then: "claim 0 = value 1\n\
            hold 0 = won\n\
            putin 0 0 = done\n\
            open 0 = done\n\
            seize 0 = won\n\
            takeout 0 = packet 0\n\
            clear 0 = done\n",
        other: GETS_1,
        world: HELD,
    },
];
