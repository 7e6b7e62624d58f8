//! A machine of several: what each event makes of its memory, and what is due then.
ghost use Rattle.std.specs.Prelude.{◌≡◌, ◌≤◌, true, length};
ghost use Rattle.raft.specs.Apply.{due};
ghost use Rattle.together.specs.Promise.{are_bytes};
ghost use Rattle.together.specs.Entry.{Did};
ghost use Rattle.together_several.specs.Machine.{apply_due};
ghost use Rattle.together_several.specs.Several.{several};

use raft::apply::{advance, due};
use raft::header::{ClusterSize, Machine, Role, load, store};
use raft::outbox::send_due;
use raft::proposal::Refusal;
use raft::receive::receive_from_another;
use raft_log::layout::Memory;
use raft_log::values::read_value;
use raft_log::{MachineId, Number};
use together::Told;
use together::engine::Engine;

pub struct Several;

// Applies the next decision, if one is due.
#[tactic(auto, unfolding(together::specs::Entry::ActTold))]
fn apply_next(memory: &mut Memory, machine: Machine<Role>, out: &mut [u8]) -> Told
    requires { 4096 ≤ length out.old }
    ensures { Did (apply_due memory.old machine (due memory.old)) result memory.new out.old out.new }
{
    let Some(slot) = due(memory) else {
        return Told::Done;
    };
    let long = read_value(memory, slot, out);
    advance(memory, machine, Number(slot + 1));
    Told::Applies(slot + 1, long as u64)
}

// What stands in a slice of bytes is below 256. The proof knows that only of what is read; nothing is left of this loop when it is compiled.
fn see_bytes(bytes: &[u8])
    ensures { are_bytes bytes.now ≡ true }
{
    for byte in bytes {
        let _seen = *byte;
    }
}

impl Engine for Several {
    ghost moves = { several };

    fn power(memory: &mut Memory, id: MachineId, size: ClusterSize) {
        raft::power::power(memory, id, size);
    }

    fn propose(memory: &mut Memory, bytes: &[u8]) -> Result<(), Refusal> {
        raft::proposal::propose(memory, bytes)
    }

    fn since(memory: &Memory) -> Number {
        load(memory).since
    }

    fn tick(memory: &mut Memory) {
        raft::election::tick(memory);
    }

    fn take_letter(memory: &mut Memory, from: MachineId, bytes: &[u8], out: &mut [u8]) -> Told {
        see_bytes(bytes);
        receive_from_another(memory, from, bytes);
        Several::go_on(memory, out)
    }

    // Memory is made safe first, then letters fly, then decisions are applied.
    #[tactic(auto, unfolding(together::specs::Entry::ActTold, crate::specs::Machine::go_on))]
    fn go_on(memory: &mut Memory, out: &mut [u8]) -> Told {
        let machine = load(memory);
        if machine.unsettled {
            store(memory, machine.settled());
            return Told::Settle;
        }
        if let Some(sent) = send_due(memory, machine, out) {
            return Told::Flies(sent.to.0, sent.long as u64);
        }
        apply_next(memory, machine, out)
    }
}
