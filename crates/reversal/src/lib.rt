//! The reversal of a part of a slice, which is all that a turn does to trays without sides.

#![tactic(auto)]

ghost use Rattle.std.specs.Prelude.{◌≡◌};
ghost use Rattle.reversal.specs.Reversed.{reversed_part};

/// Turns round the items from place `from` on and before place `to`, both counted from 0. A place past the end counts as the end, and an empty part changes nothing.
pub fn reverse_part<T: Copy>(items: &mut [T], from: usize, to: usize)
    ensures { items.new ≡ reversed_part from to items.old }
{
    let end = to.min(items.len());
    let start = from.min(end);
    let part = &mut items[start..end];
    part.reverse();
}
