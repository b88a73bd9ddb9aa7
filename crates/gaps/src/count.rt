ghost use Rattle.std.specs.Prelude.{◌≡◌, ◌≤◌, Bool, Some, length, min};
ghost use Rattle.std.specs.Iterator.{ActsAsOnTwo};
ghost use Rattle.std.specs.Option.{unwrap_or};
ghost use Rattle.gaps.specs.Counts.{apart_count};
ghost use Rattle.trays.specs.declared.arrangement.TheConstants.{MOST_TRAYS};

// How many of the trays are apart from the next one, where `end` comes after the last.
pub(crate) fn count_apart<T: Copy, F: Fn(T, T) -> bool>(trays: &[T], end: T, apart: F) -> u8
    requires few { length trays.now ≤ MOST_TRAYS }
    requires callable { F.IsAlwaysCallable apart }
    ensures { (h : T → T → Bool) → ActsAsOnTwo F.Fn apart h → result ≡ apart_count h trays.now end }
{
    let mut count = 0;
    // A loop, since the closure of a chain would call a parameter, and need clauses of its own for that.
    for (i, &tray) in trays.iter().enumerate() {
        let next = trays.get(i + 1).copied().unwrap_or(end);
        count += u8::from(apart(tray, next));
    }
    count
}

// The lesser of the least yet, where there is one, and the next.
pub(crate) fn lesser(least: Option<u8>, next: u8) -> Option<u8>
    ensures { result ≡ Some (min (unwrap_or least next) next) }
{
    Some(least.unwrap_or(next).min(next))
}
