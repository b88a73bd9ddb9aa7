ghost use Rattle.std.specs.Prelude.{◌≡◌, ◌<◌, ◌≤◌, map, length, vec_len, vec_capacity, IfOk, OnErr};
ghost use Rattle.machine.specs.Follows.{Follows, Made, leading, leading_in};

use crate::ending::Ending;
use crate::fault::Fault;
use crate::machine::Machine;
use crate::turn_range::TurnRange;
use std::alloc::{AllocError, Global};

/// The machine after each turn made, and how the list of turns ended.
#[derive(Drop)]
pub struct Trace<M> {
    pub states: Vec<M>,
    pub ending: Ending,
}

/// Makes the turns one after the other, until the last or the first that the machine does not have. All memory is asked for before the first turn: room for the turns that are made, and none where the first is refused or there are no turns.
pub fn follow<M: Machine + Copy>(
    heap: Global,
    machine: M,
    turns: &[u8],
) -> Result<Trace<M>, AllocError>
    ensures followed { IfOk result (λ j. Follows M.meaning (M.state machine) turns.now
        (map M.state j.states.items) j.ending) }
    ensures no_memory { OnErr result (0 < length turns.now) }
    ensures some_made { OnErr result (0 < leading M.meaning (M.state machine) turns.now) }
{
    let mut machine = machine;
    let mut states = Vec::with_capacity(heap, leading_in(machine.range(), turns))?;
    let ending = match make_turns(&mut machine, turns, &mut states) {
        Err(fault) => Ending::Refused(fault),
        Ok(()) if machine.is_home() => Ending::Home,
        Ok(()) => Ending::NotHome,
    };
    Ok(Trace { states, ending })
}

// How many turns of the list stand before the first that is out of this range. No turn changes a machine's range, so these are the turns that it makes.
fn leading_in(range: TurnRange, turns: &[u8]) -> usize
    ensures { result ≡ leading_in range.lowest range.highest turns.now }
{
    turns.iter().take_while(|&k| range.contains(*k)).count()
}

// Makes the turns and keeps the machine after each, up to the last or to a refusal.
fn make_turns<M: Machine + Copy>(
    machine: &mut M,
    turns: &[u8],
    states: &mut Vec<M>,
) -> Result<(), Fault>
    requires none { vec_len states.old ≡ 0 }
    requires room { leading M.meaning (M.state machine.old) turns.now ≤ vec_capacity states.old }
    ensures { Made M.meaning (M.state machine.old) turns.now
        (map M.state states.new.items) (M.state machine.new) result }
{
    for k in turns {
        machine.turn(*k)?;
        states.push_reserved(*machine);
    }
    Ok(())
}
