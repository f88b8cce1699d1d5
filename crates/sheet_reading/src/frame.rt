// Whether bytes are whole records with the right links and a header of this form: all that is asked before the points.
ghost use Rattle.std.specs.Prelude.{◌≡◌, true, ◌≤◌, ◌<◌, length};
ghost use Rattle.sheets.specs.Sheet.{info_in, points_in, decoded};
ghost use Rattle.sheets.specs.Inner.{good_shape, good_header, framed};

use records::chain::{cell, links_hold};
use records::words::word_at;
use sheets::Header;

fn shape_holds(s: &[u8]) -> bool
    ensures { result ≡ good_shape s.now }
{
    if s.len() % 32 != 0 {
        return false;
    }
    let n = s.len() / 32;
    if n < 1 {
        return false;
    }
    n <= 65536
}

// The upper half of the first word.
fn info_in(s: &[u8]) -> u64
    requires { 8 ≤ length s.now }
    ensures { (result ≡ info_in s.now) × (result < 4294967296) }
{
    word_at(s, 0) / 4294967296
}

fn header_holds(s: &[u8], info: u64) -> bool
    requires in_bounds { 32 ≤ length s.now }
    requires info_value { info ≡ info_in s.now }
    ensures { result ≡ good_header s.now }
{
    if info % 256 != 0 {
        return false;
    }
    if info / 256 % 256 > 1 {
        return false;
    }
    if info / 65536 > 64 {
        return false;
    }
    cell(s, 2) == 0
}

pub fn frame_holds(s: &[u8]) -> bool
    ensures { result ≡ framed s.now }
{
    if !shape_holds(s) {
        return false;
    }
    let info = info_in(s);
    if !header_holds(s, info) {
        return false;
    }
    links_hold(s, info, s.len() / 32)
}

// How many points the header says.
pub fn points_in(s: &[u8]) -> usize
    requires { framed s.now ≡ true }
    ensures { result ≡ points_in s.now }
{
    (info_in(s) / 65536) as usize
}

// The header.
pub fn header_in(s: &[u8]) -> Header
    requires { framed s.now ≡ true }
    ensures { result ≡ (decoded s.now).header }
{
    let info = info_in(s);
    Header {
        start: cell(s, 0),
        time: cell(s, 1),
        delta: info / 256 % 256 == 1,
    }
}
