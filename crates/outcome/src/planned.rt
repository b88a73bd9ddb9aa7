ghost use Rattle.std.specs.Prelude.{◌≡◌, ◌≤◌, ℕ, ◌++◌, map, min, take, replicate, vec_len, IfOk, None, OnOk};
ghost use Rattle.planner.specs.Calls.{on_state};
ghost use Rattle.planner.specs.Promise.{Run};
ghost use Rattle.planner.specs.declared.call.Call.TheVariants.{Work};
ghost use Rattle.planner.specs.declared.planner.TheConstants.{HIGHEST_GRANT_SUM};
ghost use Rattle.walk.specs.declared.sheet.TheConstants.{SHEET_PLACES};
ghost use Rattle.outcome.specs.Plans.{Plans};
ghost use Rattle.outcome.specs.Verdicts.{calls_within, load_fault, one_grant, sheet_after};

use crate::verdict::Verdict;
use estimate::Estimate;
use machine::{Machine, Trace, follow};
use planner::{
    Answer, Call, Fault, HIGHEST_GRANT, HIGHEST_GRANT_SUM, Played, SHEET_PLACES, Sheet, play,
};
use std::alloc::{AllocError, Global};

/// What came of the search for a plan within a limit. Looks are those of the search.
#[derive(Drop)]
pub enum Planned<M> {
    /// the planner refused to search: the limit is too high
    Refused(Fault),
    // The turns stand apart from the states, as in a list of turns that was asked for.
    /// a plan was found after these looks, and followed
    Found {
        turns: Vec<u8>,
        trace: Trace<M>,
        looks: u32,
    },
    /// there is no plan within the limit, which these looks showed
    NoPlan {
        looks: u32,
    },
    /// the search has not ended after these looks, which are all that it was granted
    Unfinished {
        looks: u32,
    },
}

/// Searches for the fewest turns that bring the machine home, by one planner, to which so many looks are granted in all. More than `HIGHEST_GRANT_SUM` count as that, since a planner makes no more.
pub fn plan_within<M: Machine + Copy, E: Estimate<M> + Drop>(
    heap: Global,
    machine: M,
    estimate: E,
    limit: u8,
    looks: u32,
) -> Result<Planned<M>, AllocError>
    ensures { IfOk result (λ p. Plans M.meaning (E.value estimate) M.state limit (M.state machine)
        (min looks HIGHEST_GRANT_SUM) p) }
{
    let replies = search_within(heap, machine, estimate, limit, looks.min(HIGHEST_GRANT_SUM))?;
    read(heap, machine, &replies)
}

// Makes the search, and gives the replies to its calls.
fn search_within<M: Machine + Copy, E: Estimate<M> + Drop>(
    heap: Global,
    machine: M,
    estimate: E,
    limit: u8,
    looks: u32,
) -> Result<Vec<Played>, AllocError>
    ensures { IfOk result (λ v. Run M.meaning (E.value estimate) None (replicate SHEET_PLACES 0)
        (map (on_state M.state) (calls_within machine limit looks)) v.items) }
{
    let mut calls = calls_within(heap, machine, limit, looks)?;
    let mut replies = room_for(heap, calls.len())?;
    play(machine, estimate, &mut calls, &mut replies);
    Ok(replies)
}

// Room for the replies to so many calls.
fn room_for(heap: Global, count: usize) -> Result<Vec<Played>, AllocError>
    ensures { IfOk result (λ v. vec_len v ≡ count) }
{
    let unplayed = Played {
        reply: Ok(Answer::Accepted),
        sheet: [0; SHEET_PLACES],
    };
    vec![in heap; unplayed; count]
}

// A load, grants that come to so many looks, and a fetch.
fn calls_within<M: Copy>(
    heap: Global,
    machine: M,
    limit: u8,
    looks: u32,
) -> Result<Vec<Call<M>>, AllocError>
    ensures { IfOk result (λ v. v.items ≡ calls_within machine limit looks) }
{
    let mut calls = Vec::new(heap);
    calls.push(Call::Load { machine, limit })?;
    for _ in 0..looks / HIGHEST_GRANT {
        calls.push(Call::Work {
            grant: HIGHEST_GRANT,
        })?;
    }
    grant_rest(&mut calls, looks % HIGHEST_GRANT)?;
    calls.push(Call::Fetch)?;
    Ok(calls)
}

// Adds one grant of so many looks. None is made of 0, which a planner would refuse.
fn grant_rest<M: Copy>(calls: &mut Vec<Call<M>>, looks: u32) -> Result<(), AllocError>
    ensures { OnOk result (calls.new.items ≡ calls.old.items ++ map Work (one_grant looks)) }
{
    if looks > 0 {
        calls.push(Call::Work { grant: looks })?;
    }
    Ok(())
}

// What came of the search, by the replies to its calls.
fn read<M: Machine + Copy>(
    heap: Global,
    machine: M,
    replies: &[Played],
) -> Result<Planned<M>, AllocError>
    ensures { (e : M.State → ℕ) (limit looks : ℕ) → looks ≤ HIGHEST_GRANT_SUM →
        Run M.meaning e None (replicate SHEET_PLACES 0)
        (map (on_state M.state) (calls_within machine limit looks)) replies.now →
        IfOk result (λ p. Plans M.meaning e M.state limit (M.state machine) looks p) }
{
    if let Some(fault) = load_fault(replies) {
        return Ok(Planned::Refused(fault));
    }
    match Verdict::last(replies) {
        Verdict::Unfinished { looks } => Ok(Planned::Unfinished { looks }),
        Verdict::NoPlan { looks } => Ok(Planned::NoPlan { looks }),
        Verdict::Found { length, looks } => {
            let turns = turns_of(heap, last_sheet(replies), length)?;
            let trace = follow(heap, machine, &turns)?;
            Ok(Planned::Found {
                turns,
                trace,
                looks,
            })
        }
    }
}

// Why the first call was refused, if it was.
fn load_fault(replies: &[Played]) -> Option<Fault>
    ensures { result ≡ load_fault replies.now }
{
    replies.first()?.reply.err()
}

// The sheet after the last call.
#[tactic(auto, using(crate::proofs::Sheets::sheet_read))]
fn last_sheet(replies: &[Played]) -> Sheet
    ensures { result ≡ sheet_after (replicate SHEET_PLACES 0) replies.now }
{
    match replies.last() {
        Some(played) => played.sheet,
        None => [0; SHEET_PLACES],
    }
}

// The first turns of a sheet, as many as this.
fn turns_of(heap: Global, sheet: Sheet, length: u8) -> Result<Vec<u8>, AllocError>
    ensures { IfOk result (λ v. v.items ≡ take length sheet) }
{
    sheet
        .iter()
        .take(usize::from(length))
        .copied()
        .collect(heap)
}
