//! Power that goes and comes, letters that are too old or do not belong, ticks.
use crate::script::Script;
use crate::script::Step::{
    Ack, Alone, Append, Applied, Ask, Bytes, Campaign, Deny, Did, Forget, Here, Is, Leads, Log,
    Propose, Reject, Restart, Stand, Tick, Vote, Waits,
};

pub static SCRIPTS: [Script; 8] = [
    Script {
        id: "TestRawNodeStart",
        size: 1,
        steps: &[
            Did(1, ""),
            Tick(1, 10),
            Did(1, "settle"),
            Propose(1, "x"),
            Did(1, "settle; apply 1 x"),
            Tick(1, 1),
            Did(1, ""),
            Is(1, "leads t1 c2 [-:1 x:1]"),
        ],
    },
    Script {
        id: "TestRawNodeRestart",
        size: 1,
        steps: &[
            Log(1, &[1, 1], 1),
            Waits(1, 1),
            Restart(1),
            Did(1, "apply 1 a"),
            Is(1, "waits t1 c1 [a:1 b:1]"),
            Tick(1, 1),
            Did(1, ""),
        ],
    },
    Script {
        id: "TestNodeRestart",
        size: 1,
        steps: &[
            Log(1, &[1, 1], 1),
            Waits(1, 1),
            Restart(1),
            Did(1, "apply 1 a"),
            Is(1, "waits t1 c1 [a:1 b:1]"),
            Tick(1, 1),
            Did(1, ""),
        ],
    },
    // Log and term are as they were; commit and what was applied are as at the last settle, and what came after is applied again.
    Script {
        id: "own: all restart",
        size: 3,
        steps: &[
            Campaign(1),
            Propose(1, "x"),
            Propose(1, "y"),
            Restart(1),
            Restart(2),
            Restart(3),
            Is(1, "waits t1 c2 [-:1 x:1 y:1]"),
            Applied(1, " x y x"),
            Campaign(2),
            Propose(2, "z"),
            Is(2, "leads t2 c5 [-:1 x:1 y:1 -:2 z:2]"),
            Is(1, "follows t2 c5 [-:1 x:1 y:1 -:2 z:2]"),
            Is(3, "follows t2 c5 [-:1 x:1 y:1 -:2 z:2]"),
        ],
    },
    // No handler of the role is reached; the sender is told the term.
    Script {
        id: "TestStepIgnoreOldTermMsg",
        size: 3,
        steps: &[
            Alone,
            Waits(1, 4),
            Append(2, 1, 2, (0, 0), 0, &[2]),
            Did(1, "to 2: here t4"),
            Is(1, "waits t4 c0 []"),
        ],
    },
    Script {
        id: "TestRejectStaleTermMessage",
        size: 3,
        steps: &[
            Alone,
            Leads(1, 4),
            Append(2, 1, 2, (0, 0), 0, &[2]),
            Did(1, "to 2: here t4"),
            Is(1, "leads t4 c0 []"),
        ],
    },
    // Letters of each kind, and bytes that are none, from a machine that is not there.
    Script {
        id: "TestRawNodeStep",
        size: 1,
        steps: &[
            Stand(1),
            Forget(1),
            Append(2, 1, 9, (0, 0), 0, &[9]),
            Ack(2, 1, 9, 9),
            Vote(2, 1, 9),
            Deny(2, 1, 9),
            Ask(2, 1, 9, (9, 9)),
            Reject(2, 1, 9, 1),
            Here(2, 1, 9),
            Bytes(2, 1, "no letter"),
            Did(1, ""),
            Is(1, "leads t1 c1 [-:1]"),
        ],
    },
    Script {
        id: "TestNodeTick",
        size: 1,
        steps: &[
            Tick(1, 9),
            Is(1, "waits t0 c0 []"),
            Tick(1, 1),
            Is(1, "leads t1 c1 [-:1]"),
        ],
    },
];
