//! Asked for a vote, in any role.
use crate::script::Script;
use crate::script::Step::{Alone, Ask, Did, Forget, Is, Leads, Log, Stand, Stands, Vote, Waits};

pub static SCRIPTS: [Script; 20] = [
    Script {
        id: "T013",
        size: 3,
        steps: &[
            Alone,
            Waits(1, 1),
            Ask(2, 1, 2, (42, 2)),
            Did(1, "settle; to 2: vote t2"),
            Is(1, "waits t2 c0 []"),
        ],
    },
    Script {
        id: "T016",
        size: 3,
        steps: &[
            Alone,
            Stand(1),
            Vote(2, 1, 1),
            Vote(3, 1, 1),
            Forget(1),
            Ask(2, 1, 2, (42, 2)),
            Did(1, "settle; to 2: vote t2"),
            Is(1, "waits t2 c0 [-:1]"),
        ],
    },
    // Node 1, with the log 1:2 2:2, is asked by the owner of the term that it is in.
    Script {
        id: "T063",
        size: 3,
        steps: &[
            Alone,
            Log(1, &[2, 2], 0),
            Waits(1, 2),
            Ask(2, 1, 2, (0, 0)),
            Did(1, "to 2: deny t2"),
        ],
    },
    Script {
        id: "T064",
        size: 3,
        steps: &[
            Alone,
            Log(1, &[2, 2], 0),
            Waits(1, 2),
            Ask(2, 1, 2, (0, 1)),
            Did(1, "to 2: deny t2"),
        ],
    },
    Script {
        id: "T065",
        size: 3,
        steps: &[
            Alone,
            Log(1, &[2, 2], 0),
            Waits(1, 2),
            Ask(2, 1, 2, (0, 2)),
            Did(1, "to 2: deny t2"),
        ],
    },
    Script {
        id: "T066",
        size: 3,
        steps: &[
            Alone,
            Log(1, &[2, 2], 0),
            Waits(1, 3),
            Ask(3, 1, 3, (0, 3)),
            Did(1, "to 3: vote t3"),
        ],
    },
    Script {
        id: "T067",
        size: 3,
        steps: &[
            Alone,
            Log(1, &[2, 2], 0),
            Waits(1, 2),
            Ask(2, 1, 2, (1, 0)),
            Did(1, "to 2: deny t2"),
        ],
    },
    Script {
        id: "T068",
        size: 3,
        steps: &[
            Alone,
            Log(1, &[2, 2], 0),
            Waits(1, 2),
            Ask(2, 1, 2, (1, 1)),
            Did(1, "to 2: deny t2"),
        ],
    },
    Script {
        id: "T069",
        size: 3,
        steps: &[
            Alone,
            Log(1, &[2, 2], 0),
            Waits(1, 2),
            Ask(2, 1, 2, (1, 2)),
            Did(1, "to 2: deny t2"),
        ],
    },
    Script {
        id: "T070",
        size: 3,
        steps: &[
            Alone,
            Log(1, &[2, 2], 0),
            Waits(1, 3),
            Ask(3, 1, 3, (1, 3)),
            Did(1, "to 3: vote t3"),
        ],
    },
    Script {
        id: "T071",
        size: 3,
        steps: &[
            Alone,
            Log(1, &[2, 2], 0),
            Waits(1, 2),
            Ask(2, 1, 2, (2, 0)),
            Did(1, "to 2: deny t2"),
        ],
    },
    Script {
        id: "T072",
        size: 3,
        steps: &[
            Alone,
            Log(1, &[2, 2], 0),
            Waits(1, 2),
            Ask(2, 1, 2, (2, 1)),
            Did(1, "to 2: deny t2"),
        ],
    },
    Script {
        id: "T073",
        size: 3,
        steps: &[
            Alone,
            Log(1, &[2, 2], 0),
            Waits(1, 2),
            Ask(2, 1, 2, (2, 2)),
            Did(1, "to 2: vote t2"),
        ],
    },
    Script {
        id: "T074",
        size: 3,
        steps: &[
            Alone,
            Log(1, &[2, 2], 0),
            Waits(1, 3),
            Ask(3, 1, 3, (2, 3)),
            Did(1, "to 3: vote t3"),
        ],
    },
    Script {
        id: "T075",
        size: 3,
        steps: &[
            Alone,
            Log(1, &[2, 2], 0),
            Waits(1, 2),
            Ask(2, 1, 2, (3, 0)),
            Did(1, "to 2: deny t2"),
        ],
    },
    Script {
        id: "T076",
        size: 3,
        steps: &[
            Alone,
            Log(1, &[2, 2], 0),
            Waits(1, 2),
            Ask(2, 1, 2, (3, 1)),
            Did(1, "to 2: deny t2"),
        ],
    },
    Script {
        id: "T078",
        size: 3,
        steps: &[
            Alone,
            Log(1, &[2, 2], 0),
            Waits(1, 3),
            Ask(3, 1, 3, (3, 3)),
            Did(1, "to 3: vote t3"),
        ],
    },
    // One that has the vote asks again.
    Script {
        id: "T079",
        size: 3,
        steps: &[
            Alone,
            Log(1, &[2, 2], 0),
            Waits(1, 2),
            Ask(2, 1, 2, (3, 2)),
            Ask(2, 1, 2, (3, 2)),
            Did(1, "to 2: vote t2; to 2: vote t2"),
        ],
    },
    // One that leads or stands gives no vote, and no answer, in its own term.
    Script {
        id: "T081",
        size: 3,
        steps: &[
            Alone,
            Log(1, &[2, 2], 0),
            Leads(1, 4),
            Ask(2, 1, 4, (3, 3)),
            Did(1, ""),
        ],
    },
    Script {
        id: "T083",
        size: 3,
        steps: &[
            Alone,
            Log(1, &[2, 2], 0),
            Stands(1, 4),
            Ask(2, 1, 4, (3, 3)),
            Did(1, ""),
        ],
    },
];
