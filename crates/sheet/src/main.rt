// Gauge input to sheets (docs/SHEET.md), one for each collection, and sheets back to the gauge's lines; bytes are in hexadecimal.
//
//     e SIZE SCALE LIMIT START    starts a map anew, as the gauge's
//     r BITS SET                  records a value, as the gauge's
//     c TIME                      collects, and prints the sheet: `s RECORDS`, and a line of 64 digits for each record
//     s RECORDS                   the next RECORDS lines are a sheet's records; after the last of them prints what the gauge prints of
//                                 the collection, or `! 15` where they are no sheet
//
// A line that can't be followed prints `? N`, N its number; in a sheet it ends the sheet, which is not read. Nor is one that the input's end
// cuts short. Input is read and output written in blocks: memory stays the same however long a shift is.
#![tactic(auto)]

mod calls;
mod collect;
mod digits;
mod follow;
mod reading;
mod state;
mod writing;

// Follows the input to its end. A proved loop has to end, and nothing says that the input does: no run has so many lines.
fn main(rt: HostRuntime) {
    let input = rt.stdin();
    let out = rt.stdout();
    let mut block = [0u8; 65536];
    let mut text = [0u8; 65536];
    let mut line = [0u8; 256];
    let mut sets = [[0u64; 9]; 32];
    let mut entries = [[0u64; 3]; 32];
    let mut order = [0u32; 32];
    let mut figures = [[0u64; 8]; 32];
    let mut extremes = [[0.0f64; 3]; 32];
    let mut pos = [0u64; 5120];
    let mut neg = [0u64; 5120];
    let mut out_sets = [[0u64; 9]; 64];
    let mut out_words = [[0u64; 12]; 64];
    let mut out_pos = [0u64; 10240];
    let mut out_neg = [0u64; 10240];
    let mut bounds = [0.0f64; 10176];
    let mut sheet = [0u8; 233504];
    let mut ports = lines::input::first();
    let mut state = state::first();
    for number in 1..=u64::MAX {
        if ports.over {
            break;
        }
        ports = lines::input::next(&input, &out, ports, &mut block, &mut line, &text);
        let done = follow::follow(
            &out,
            number,
            state,
            lines::input::front(&line, ports.len),
            ports.over,
            &mut text,
            ports.waiting,
            &mut sets,
            &mut entries,
            &mut order,
            &mut figures,
            &mut extremes,
            &mut pos,
            &mut neg,
            &mut out_sets,
            &mut out_words,
            &mut out_pos,
            &mut out_neg,
            &mut bounds,
            &mut sheet,
        );
        state = done.state;
        ports.waiting = done.text;
    }
    lines::output::write(&out, &text, ports.waiting);
}
