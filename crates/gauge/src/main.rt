// The gauge: boards' deviations recorded by blade and species, and collected (document 01, "A run of the gauge program").
//
//     e SIZE SCALE LIMIT START    starts a map anew
//     r BITS SET                  records a value
//     c TIME                      prints `c START TIME POINTS` and a line for each point; what is recorded next counts from TIME
//
// A line that can't be followed prints `? N`, N its number. Input is read and output written in blocks: memory stays the same however
// long a shift is.
#![tactic(auto)]

use printing::Form;

fn main(rt: HostRuntime) {
    let input = rt.stdin();
    let out = rt.stdout();
    gauge_lines::run(&input, &out, Form::Point);
}
