//! A machine that is alone: what each event makes of its memory, and what is due then.
ghost use Rattle.together.specs.Alone.{alone};

use super::Told;
use super::engine::Engine;
use raft::apply::due;
use raft::header::ClusterSize;
use raft::proposal::Refusal;
use raft_log::layout::Memory;
use raft_log::values::read_value;
use raft_log::{MachineId, Number};
use solo::apply::advance;
use solo::header::{load, store};

pub struct Alone;

impl Engine for Alone {
    ghost moves = { alone };

    fn power(memory: &mut Memory, id: MachineId, size: ClusterSize) {
        solo::power::power(memory, id, size);
    }

    fn propose(memory: &mut Memory, bytes: &[u8]) -> Result<(), Refusal> {
        solo::proposal::propose(memory, bytes)
    }

    fn since(memory: &Memory) -> Number {
        load(memory).since
    }

    fn tick(memory: &mut Memory) {
        solo::election::tick(memory);
    }

    #[tactic(auto, unfolding(crate::specs::Entry::ActTold))]
    fn take_letter(_memory: &mut Memory, _from: MachineId, _bytes: &[u8], _out: &mut [u8]) -> Told {
        Told::Done
    }

    // Memory is made safe first, then decisions are applied.
    #[tactic(auto, unfolding(crate::specs::Entry::ActTold, crate::specs::Machine::go_on))]
    fn go_on(memory: &mut Memory, out: &mut [u8]) -> Told {
        let machine = load(memory);
        if machine.unsettled {
            store(memory, machine.settled());
            return Told::Settle;
        }
        let Some(slot) = due(memory) else {
            return Told::Done;
        };
        let long = read_value(memory, slot, out);
        advance(memory, machine, Number(slot + 1));
        Told::Applies(slot + 1, long as u64)
    }
}
