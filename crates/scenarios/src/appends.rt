//! A follower and the appends that come to it: node 1 of three at term 2, where node 2 leads.
use crate::script::Script;
use crate::script::Step::{Alone, Append, Did, Is, Log, Waits};

pub static SCRIPTS: [Script; 21] = [
    // The log is 1:1 2:2, nothing is decided.
    Script {
        id: "T050",
        size: 3,
        steps: &[
            Alone,
            Log(1, &[1, 2], 0),
            Waits(1, 2),
            Append(2, 1, 2, (2, 3), 3, &[]),
            Is(1, "follows t2 c0 [a:1 b:2]"),
            Did(1, "to 2: reject t2 2 hint 1"),
        ],
    },
    Script {
        id: "T053",
        size: 3,
        steps: &[
            Alone,
            Log(1, &[1, 2], 0),
            Waits(1, 2),
            Append(2, 1, 2, (0, 0), 1, &[2]),
            Is(1, "follows t2 c1 [a:2]"),
            Did(1, "settle; to 2: accept t2 1; apply 1 a"),
        ],
    },
    Script {
        id: "T054",
        size: 3,
        steps: &[
            Alone,
            Log(1, &[1, 2], 0),
            Waits(1, 2),
            Append(2, 1, 2, (2, 2), 3, &[2, 2]),
            Is(1, "follows t2 c3 [a:1 b:2 c:2 d:2]"),
            Did(
                1,
                "settle; to 2: accept t2 4; apply 1 a; apply 2 b; apply 3 c",
            ),
        ],
    },
    Script {
        id: "T055",
        size: 3,
        steps: &[
            Alone,
            Log(1, &[1, 2], 0),
            Waits(1, 2),
            Append(2, 1, 2, (2, 2), 4, &[2]),
            Is(1, "follows t2 c3 [a:1 b:2 c:2]"),
            Did(
                1,
                "settle; to 2: accept t2 3; apply 1 a; apply 2 b; apply 3 c",
            ),
        ],
    },
    Script {
        id: "T056",
        size: 3,
        steps: &[
            Alone,
            Log(1, &[1, 2], 0),
            Waits(1, 2),
            Append(2, 1, 2, (1, 1), 4, &[2]),
            Is(1, "follows t2 c2 [a:1 b:2]"),
            Did(1, "to 2: accept t2 2; apply 1 a; apply 2 b"),
        ],
    },
    Script {
        id: "T057",
        size: 3,
        steps: &[
            Alone,
            Log(1, &[1, 2], 0),
            Waits(1, 2),
            Append(2, 1, 2, (1, 1), 3, &[]),
            Is(1, "follows t2 c1 [a:1 b:2]"),
            Did(1, "to 2: accept t2 1; apply 1 a"),
        ],
    },
    Script {
        id: "T058",
        size: 3,
        steps: &[
            Alone,
            Log(1, &[1, 2], 0),
            Waits(1, 2),
            Append(2, 1, 2, (1, 1), 3, &[2]),
            Is(1, "follows t2 c2 [a:1 b:2]"),
            Did(1, "to 2: accept t2 2; apply 1 a; apply 2 b"),
        ],
    },
    Script {
        id: "T059",
        size: 3,
        steps: &[
            Alone,
            Log(1, &[1, 2], 0),
            Waits(1, 2),
            Append(2, 1, 2, (2, 2), 3, &[]),
            Is(1, "follows t2 c2 [a:1 b:2]"),
            Did(1, "to 2: accept t2 2; apply 1 a; apply 2 b"),
        ],
    },
    Script {
        id: "T060",
        size: 3,
        steps: &[
            Alone,
            Log(1, &[1, 2], 0),
            Waits(1, 2),
            Append(2, 1, 2, (2, 2), 4, &[]),
            Is(1, "follows t2 c2 [a:1 b:2]"),
            Did(1, "to 2: accept t2 2; apply 1 a; apply 2 b"),
        ],
    },
    // An append without entries stands for a heartbeat.
    Script {
        id: "T062",
        size: 3,
        steps: &[
            Alone,
            Log(1, &[1, 2, 3], 2),
            Waits(1, 2),
            Append(2, 1, 2, (3, 3), 1, &[]),
            Is(1, "follows t2 c2 [a:1 b:2 c:3]"),
            Did(1, "to 2: accept t2 3; apply 1 a; apply 2 b"),
        ],
    },
    Script {
        id: "T196",
        size: 3,
        steps: &[
            Alone,
            Log(1, &[], 0),
            Waits(1, 2),
            Append(2, 1, 2, (0, 0), 1, &[1]),
            Is(1, "follows t2 c1 [a:1]"),
            Did(1, "settle; to 2: accept t2 1; apply 1 a"),
        ],
    },
    Script {
        id: "T198",
        size: 3,
        steps: &[
            Alone,
            Log(1, &[], 0),
            Waits(1, 2),
            Append(2, 1, 2, (0, 0), 2, &[1, 1]),
            Is(1, "follows t2 c2 [a:1 b:1]"),
            Did(1, "settle; to 2: accept t2 2; apply 1 a; apply 2 b"),
        ],
    },
    Script {
        id: "T199",
        size: 3,
        steps: &[
            Alone,
            Log(1, &[], 0),
            Waits(1, 2),
            Append(2, 1, 2, (0, 0), 1, &[1, 1]),
            Is(1, "follows t2 c1 [a:1 b:1]"),
            Did(1, "settle; to 2: accept t2 2; apply 1 a"),
        ],
    },
    // Hints are those that are found by term.
    Script {
        id: "T201",
        size: 3,
        steps: &[
            Alone,
            Log(1, &[1, 2], 1),
            Waits(1, 2),
            Append(2, 1, 2, (1, 1), 0, &[]),
            Is(1, "follows t2 c1 [a:1 b:2]"),
            Did(1, "to 2: accept t2 1; apply 1 a"),
        ],
    },
    Script {
        id: "T202",
        size: 3,
        steps: &[
            Alone,
            Log(1, &[1, 2], 1),
            Waits(1, 2),
            Append(2, 1, 2, (2, 2), 0, &[]),
            Is(1, "follows t2 c1 [a:1 b:2]"),
            Did(1, "to 2: accept t2 2; apply 1 a"),
        ],
    },
    Script {
        id: "T203",
        size: 3,
        steps: &[
            Alone,
            Log(1, &[1, 2], 1),
            Waits(1, 2),
            Append(2, 1, 2, (2, 1), 0, &[]),
            Is(1, "follows t2 c1 [a:1 b:2]"),
            Did(1, "to 2: reject t2 2 hint 1; apply 1 a"),
        ],
    },
    Script {
        id: "T204",
        size: 3,
        steps: &[
            Alone,
            Log(1, &[1, 2], 1),
            Waits(1, 2),
            Append(2, 1, 2, (3, 3), 0, &[]),
            Is(1, "follows t2 c1 [a:1 b:2]"),
            Did(1, "to 2: reject t2 3 hint 2; apply 1 a"),
        ],
    },
    // What differs is cut off; what is known is left alone, and then nothing is made safe.
    Script {
        id: "T205",
        size: 3,
        steps: &[
            Alone,
            Log(1, &[1, 2], 0),
            Waits(1, 2),
            Append(2, 1, 2, (2, 2), 0, &[3]),
            Is(1, "follows t2 c0 [a:1 b:2 c:3]"),
            Did(1, "settle; to 2: accept t2 3"),
        ],
    },
    Script {
        id: "T206",
        size: 3,
        steps: &[
            Alone,
            Log(1, &[1, 2], 0),
            Waits(1, 2),
            Append(2, 1, 2, (1, 1), 0, &[3, 4]),
            Is(1, "follows t2 c0 [a:1 b:3 c:4]"),
            Did(1, "settle; to 2: accept t2 3"),
        ],
    },
    Script {
        id: "T207",
        size: 3,
        steps: &[
            Alone,
            Log(1, &[1, 2], 0),
            Waits(1, 2),
            Append(2, 1, 2, (0, 0), 0, &[1]),
            Is(1, "follows t2 c0 [a:1 b:2]"),
            Did(1, "to 2: accept t2 1"),
        ],
    },
    Script {
        id: "T208",
        size: 3,
        steps: &[
            Alone,
            Log(1, &[1, 2], 0),
            Waits(1, 2),
            Append(2, 1, 2, (0, 0), 0, &[3]),
            Is(1, "follows t2 c0 [a:3]"),
            Did(1, "settle; to 2: accept t2 1"),
        ],
    },
];
