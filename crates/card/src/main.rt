// The blade card (request L2): follows the gauge's lines (crates/gauge/src/main.rt), and prints at each `c` the collection's own line, then
// for every point its set and its card:
//
//     c START TIME POINTS
//     SET CARD                    the mean deviation of the set's boards in whole hundredths of a millimetre
//
// A card that is refused is `! N`: 14, a sum that is no whole number of 1/1024 mm or whose magnitude is above 2^43. (13, no boards, and 8
// do not come up here: a delta collection lists what was recorded.) A line that can't be followed prints `? N`, as the gauge does.
#![tactic(auto)]

use printing::Form;

fn main(rt: HostRuntime) {
    let input = rt.stdin();
    let out = rt.stdout();
    gauge_lines::run(&input, &out, Form::Card);
}
