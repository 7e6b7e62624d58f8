//! An election in one round: votes that come, votes that are asked for, votes that are given.
use crate::script::Script;
use crate::script::Step::{
    Alone, Append, Ask, Deny, Did, Forget, Is, Log, Stand, Tick, Vote, Waits,
};

pub static SCRIPTS: [Script; 24] = [
    Script {
        id: "T162",
        size: 1,
        steps: &[Alone, Stand(1), Is(1, "leads t1 c1 [-:1]")],
    },
    Script {
        id: "T163",
        size: 3,
        steps: &[
            Alone,
            Stand(1),
            Vote(2, 1, 1),
            Vote(3, 1, 1),
            Is(1, "leads t1 c0 [-:1]"),
        ],
    },
    Script {
        id: "T165",
        size: 5,
        steps: &[
            Alone,
            Stand(1),
            Vote(2, 1, 1),
            Vote(3, 1, 1),
            Vote(4, 1, 1),
            Vote(5, 1, 1),
            Is(1, "leads t1 c0 [-:1]"),
        ],
    },
    Script {
        id: "T166",
        size: 5,
        steps: &[
            Alone,
            Stand(1),
            Vote(2, 1, 1),
            Vote(3, 1, 1),
            Vote(4, 1, 1),
            Is(1, "leads t1 c0 [-:1]"),
        ],
    },
    Script {
        id: "T167",
        size: 5,
        steps: &[
            Alone,
            Stand(1),
            Vote(2, 1, 1),
            Vote(3, 1, 1),
            Is(1, "leads t1 c0 [-:1]"),
        ],
    },
    // Upstream it follows after so many refusals; here it stands till its time is up.
    Script {
        id: "T169",
        size: 5,
        steps: &[
            Alone,
            Stand(1),
            Deny(2, 1, 1),
            Deny(3, 1, 1),
            Deny(4, 1, 1),
            Deny(5, 1, 1),
            Is(1, "stands t1 c0 []"),
        ],
    },
    Script {
        id: "T170",
        size: 5,
        steps: &[
            Alone,
            Stand(1),
            Vote(2, 1, 1),
            Deny(3, 1, 1),
            Deny(4, 1, 1),
            Deny(5, 1, 1),
            Is(1, "stands t1 c0 []"),
        ],
    },
    Script {
        id: "T171",
        size: 3,
        steps: &[Alone, Stand(1), Is(1, "stands t1 c0 []")],
    },
    Script {
        id: "T172",
        size: 5,
        steps: &[Alone, Stand(1), Vote(2, 1, 1), Is(1, "stands t1 c0 []")],
    },
    Script {
        id: "T173",
        size: 5,
        steps: &[
            Alone,
            Stand(1),
            Deny(2, 1, 1),
            Deny(3, 1, 1),
            Is(1, "stands t1 c0 []"),
        ],
    },
    Script {
        id: "T174",
        size: 5,
        steps: &[Alone, Stand(1), Is(1, "stands t1 c0 []")],
    },
    Script {
        id: "T176",
        size: 3,
        steps: &[
            Alone,
            Waits(1, 2),
            Ask(2, 1, 2, (0, 0)),
            Did(1, "to 2: vote t2"),
        ],
    },
    Script {
        id: "T178",
        size: 3,
        steps: &[
            Alone,
            Waits(1, 2),
            Ask(2, 1, 2, (0, 0)),
            Ask(2, 1, 2, (0, 0)),
            Did(1, "to 2: vote t2; to 2: vote t2"),
        ],
    },
    // The leader of term 3 sends entries; then node 1 times out into term 4, its own.
    Script {
        id: "T215",
        size: 3,
        steps: &[
            Alone,
            Append(3, 1, 3, (0, 0), 0, &[1]),
            Tick(1, 9),
            Forget(1),
            Tick(1, 1),
            Did(1, "settle; to 3: ask t4 1:1; to 2: ask t4 1:1"),
        ],
    },
    Script {
        id: "T216",
        size: 3,
        steps: &[
            Alone,
            Append(3, 1, 3, (0, 0), 0, &[1, 2]),
            Tick(1, 9),
            Forget(1),
            Tick(1, 1),
            Did(1, "settle; to 3: ask t4 2:2; to 2: ask t4 2:2"),
        ],
    },
    // Node 1 of two is asked at term 4, which is node 2's.
    Script {
        id: "T217",
        size: 2,
        steps: &[
            Alone,
            Log(1, &[1], 0),
            Ask(2, 1, 4, (1, 1)),
            Did(1, "settle; to 2: vote t4"),
        ],
    },
    Script {
        id: "T218",
        size: 2,
        steps: &[
            Alone,
            Log(1, &[1], 0),
            Ask(2, 1, 4, (2, 1)),
            Did(1, "settle; to 2: vote t4"),
        ],
    },
    Script {
        id: "T219",
        size: 2,
        steps: &[
            Alone,
            Log(1, &[1, 1], 0),
            Ask(2, 1, 4, (1, 1)),
            Did(1, "settle; to 2: deny t4"),
        ],
    },
    Script {
        id: "T220",
        size: 2,
        steps: &[
            Alone,
            Log(1, &[1], 0),
            Ask(2, 1, 4, (1, 2)),
            Did(1, "settle; to 2: vote t4"),
        ],
    },
    Script {
        id: "T221",
        size: 2,
        steps: &[
            Alone,
            Log(1, &[1], 0),
            Ask(2, 1, 4, (2, 2)),
            Did(1, "settle; to 2: vote t4"),
        ],
    },
    Script {
        id: "T222",
        size: 2,
        steps: &[
            Alone,
            Log(1, &[1, 1], 0),
            Ask(2, 1, 4, (1, 2)),
            Did(1, "settle; to 2: vote t4"),
        ],
    },
    Script {
        id: "T223",
        size: 2,
        steps: &[
            Alone,
            Log(1, &[2], 0),
            Ask(2, 1, 4, (1, 1)),
            Did(1, "settle; to 2: deny t4"),
        ],
    },
    Script {
        id: "T224",
        size: 2,
        steps: &[
            Alone,
            Log(1, &[2], 0),
            Ask(2, 1, 4, (2, 1)),
            Did(1, "settle; to 2: deny t4"),
        ],
    },
    Script {
        id: "T225",
        size: 2,
        steps: &[
            Alone,
            Log(1, &[2, 1], 0),
            Ask(2, 1, 4, (1, 1)),
            Did(1, "settle; to 2: deny t4"),
        ],
    },
];
