ghost use Rattle.std.specs.Prelude.{◌≡◌, ◌<◌, ◌≤◌, ◌↔◌, IsTrue, MatchResult};
ghost use Rattle.machine.specs.declared.fault.Fault.TheVariants.{TrayCount, Span};
ghost use Rattle.trays.specs.Form.{number_at};
ghost use Rattle.trays.specs.Marks.{MarksCount};
ghost use Rattle.trays.specs.Settable.{Accepted, Blank, Counted, Each, Found, LacksNone, New, Numbered, OneAnswer, Refused, Spanned};

use crate::arrangement::MOST_TRAYS;
use crate::tray::Tray;
use machine::Fault;

/// Checks the trays of a machine of n trays, and the places after them: refuses a wrong number of trays, then a wrong span where the kind has one, then numbers that are not 1 to n, each once, then a tray after them.
#[tactic(auto, using(crate::proofs::OneAnswer::one_answer, crate::proofs::MarkCounts::marks_count))]
pub fn check_trays<T: Tray>(
    least: u8,
    n: u8,
    span: Option<u8>,
    trays: &[T; MOST_TRAYS],
) -> Result<(), Fault>
    ensures one { OneAnswer T.form }
    ensures marked { MarksCount }
    ensures lacks_none { LacksNone T.form }
    ensures cases { MatchResult result
        (λ _. Spanned n span × Accepted T.form least n trays.now)
        (λ f. Refused T.form least n span trays.now f) }
{
    check_count(least, n)?;
    check_span(n, span)?;
    if let Some(i) = misnumbered(n, trays) {
        return Err(Fault::TrayNumber(i));
    }
    if let Some(i) = repeated(n, trays) {
        return Err(Fault::TrayRepeated(i));
    }
    if let Some(i) = filled(n, trays) {
        return Err(Fault::TrayBeyond(i));
    }
    Ok(())
}

// Refuses a number of trays below the kind's least or above `MOST_TRAYS`.
fn check_count(least: u8, n: u8) -> Result<(), Fault>
    ensures { MatchResult result (λ _. Counted least n) (λ f. (f ≡ TrayCount) × ¬ Counted least n) }
{
    if !(least..=MOST_TRAYS as u8).contains(&n) {
        return Err(Fault::TrayCount);
    }
    Ok(())
}

// Refuses a span below 2 or above n.
fn check_span(n: u8, span: Option<u8>) -> Result<(), Fault>
    ensures { MatchResult result (λ _. Spanned n span) (λ f. (f ≡ Span) × ¬ Spanned n span) }
{
    match span {
        Some(k) if !(2..=n).contains(&k) => Err(Fault::Span),
        _ => Ok(()),
    }
}

// The next four take n and the trays each, since the prover does not find that a struct with an array of trays of a generic T, which a method would borrow, fits in memory.

// The first of n places whose number is not from 1 to n.
fn misnumbered<T: Tray>(n: u8, trays: &[T; MOST_TRAYS]) -> Option<usize>
    requires { n ≤ MOST_TRAYS }
    ensures { Found (Numbered n (number_at T.form trays.now)) 0 n result }
{
    // A slice, since of `take(n)` of all places the compiler makes code for each place.
    trays[..n as usize]
        .iter()
        .position(|tray| !(1..=n).contains(&tray.number()))
}

// The first of n places whose number stands at an earlier place too. The numbers seen are bits of a word, as in `all_distinct`, which counts them.
#[tactic(auto, using(crate::proofs::MarkCounts::marking))]
fn repeated<T: Tray>(n: u8, trays: &[T; MOST_TRAYS]) -> Option<usize>
    requires few { n ≤ MOST_TRAYS }
    requires numbered { Each (Numbered n (number_at T.form trays.now)) 0 n }
    ensures { Found (New (number_at T.form trays.now)) 0 n result }
{
    if all_distinct(n, trays) {
        return None;
    }
    let mut seen = 0u32;
    // A loop, since the prover does not find what a `position` answers whose closure changes the marks.
    for (i, tray) in trays[..n as usize].iter().enumerate() {
        let mark = 1 << (tray.number() - 1);
        if seen & mark != 0 {
            return Some(i);
        }
        seen |= mark;
    }
    None
}

// Whether none of n numbers stands twice: each sets its mark, and n marks are counted.
#[tactic(auto, using(crate::proofs::MarkCounts::marking))]
fn all_distinct<T: Tray>(n: u8, trays: &[T; MOST_TRAYS]) -> bool
    requires few { n ≤ MOST_TRAYS }
    requires numbered { Each (Numbered n (number_at T.form trays.now)) 0 n }
    ensures { IsTrue result ↔ (Each (New (number_at T.form trays.now)) 0 n) }
{
    let mut marks = 0u32;
    // A loop, since in the closure of a `fold` it is not known that the number is from 1 to n, which the subtraction and the shift need.
    for tray in &trays[..n as usize] {
        marks |= 1 << (tray.number() - 1);
    }
    marks.count_ones() == n as u32
}

// The first place from n on that has a tray.
fn filled<T: Tray>(n: u8, trays: &[T; MOST_TRAYS]) -> Option<usize>
    requires { n ≤ MOST_TRAYS }
    ensures { Found (Blank T.form trays.now) n MOST_TRAYS result }
{
    // Of an array of a generic T the prover takes no part from n on; of a slice it does.
    let places = &trays[..];
    places[n as usize..]
        .iter()
        .position(|tray| !tray.stands(0))
        .map(|i| n as usize + i)
}
