use std::io;

// How lines are written, and what is accepted.
const HELP: &str = "\
tower sets a tower or a ring of numbered trays, makes turns on it, and finds
the fewest turns that bring its trays into order. It answers each line of its
input, or the one line that its arguments are:

  KIND TRAY .. [count N] [span K] plan [limit L] [looks B]
  KIND TRAY .. [count N] [span K] turns TURN ..
  KIND TRAY .. [count N] [span K] estimate
  KIND TRAY .. [count N] [span K] dual
  help

KIND      plain: a tower. Turn T, from 2 to the number of trays, turns over
            its top T trays as one block.
          sided: a tower whose trays have a door. Turn T, from 1 to the number
            of trays, turns over the top T trays, and their doors to the other
            side.
          ring: turn T, from 1 to the number of trays, turns over the K trays
            from place T on, counted round.
TRAY      from the top, or from place 1: each number from 1 to the number of
            trays, once. In a sided tower -3 is tray 3 with its door turned
            away. A tower has 1 to 32 trays, a ring 4 to 32.
count N   the number of trays, where it is not that of the trays written;
            those after the first N must then be 0.
span K    how many trays a turn of a ring turns over, from 2 to the number of
            trays. Each line of a ring has it, and none of a tower.
plan      the fewest turns that bring the trays into order: 1, 2, 3, .., with
            no door turned away.
limit L   the most turns that a plan may have, from 0 to 64; 64 without it.
looks B   the most looks that the search may make, from 1 to 2000000000, after
            the limit. With too few there is no answer. Without it they are
            2000000000, which may take minutes.
turns     the turns to make, in this order. There may be none.
estimate  how many turns are needed at least, by three estimates.
dual      the tower or ring whose plans are this one's read backwards.

Turns are drawn on the trays before each, with the block that is turned over in
brackets. In a ring it may go on from the last place to the first, as 4]1 3[2,
and | is where a block of all trays begins and ends. The last row has the trays
after the last turn.

Try: plain 1 3 2 plan
     sided 3 -1 2 plan limit 5
     ring 2 1 4 3 span 2 plan limit 5 looks 1000";

pub(crate) fn show_help(rt: &HostRuntime) -> io::Result<()> {
    println!(rt; "{HELP}")
}

// Whether this line asks for help.
pub(crate) fn asks_help(line: &str) -> bool {
    matches!(line.trim(), "help" | "--help" | "-h")
}
