// What is lent of a store: its first n entries, all of them where it has no more.
//
// A call takes what a function here answers, so that a caller need not know how long its stores are.
ghost use Rattle.std.specs.Prelude.{◌≡◌, min, ◌*◌, take, drop};

use crate::{Keys, within};

// ---- to be changed

pub fn sets<'a>(xs: &'a mut [[u64; 9]], n: u64) -> &'a mut [[u64; 9]]
    ensures { result.now ≡ take n xs.old }
{
    let e = within(n, xs.len());
    &mut xs[0..e]
}

pub fn entries<'a>(xs: &'a mut [[u64; 3]], n: u64) -> &'a mut [[u64; 3]]
    ensures { result.now ≡ take n xs.old }
{
    let e = within(n, xs.len());
    &mut xs[0..e]
}

pub fn order<'a>(xs: &'a mut [u32], n: u64) -> &'a mut [u32]
    ensures { result.now ≡ take n xs.old }
{
    let e = within(n, xs.len());
    &mut xs[0..e]
}

pub fn figures<'a>(xs: &'a mut [[u64; 8]], n: u64) -> &'a mut [[u64; 8]]
    ensures { result.now ≡ take n xs.old }
{
    let e = within(n, xs.len());
    &mut xs[0..e]
}

pub fn extremes<'a>(xs: &'a mut [[f64; 3]], n: u64) -> &'a mut [[f64; 3]]
    ensures { result.now ≡ take n xs.old }
{
    let e = within(n, xs.len());
    &mut xs[0..e]
}

pub fn wholes<'a>(xs: &'a mut [[i64; 3]], n: u64) -> &'a mut [[i64; 3]]
    ensures { result.now ≡ take n xs.old }
{
    let e = within(n, xs.len());
    &mut xs[0..e]
}

pub fn words<'a>(xs: &'a mut [[u64; 12]], n: u64) -> &'a mut [[u64; 12]]
    ensures { result.now ≡ take n xs.old }
{
    let e = within(n, xs.len());
    &mut xs[0..e]
}

pub fn counts<'a>(xs: &'a mut [u64], n: u64) -> &'a mut [u64]
    ensures { result.now ≡ take n xs.old }
{
    let e = within(n, xs.len());
    &mut xs[0..e]
}

// The totals, which lie behind the negative counts.
pub fn totals<'a>(xs: &'a mut [u64], n: u64) -> &'a mut [u64]
    ensures { result.now ≡ take n (drop 10560 xs.old) }
{
    let a = within(10560, xs.len());
    let e = a + within(n, xs.len() - a);
    &mut xs[a..e]
}

// The values of sums or last values, which lie behind the bounds.
pub fn values<'a>(xs: &'a mut [f64], n: u64) -> &'a mut [f64]
    ensures { result.now ≡ take n (drop 2200 xs.old) }
{
    let a = within(2200, xs.len());
    let e = a + within(n, xs.len() - a);
    &mut xs[a..e]
}

// ---- to be read

pub fn sets_in<'a>(xs: &'a [[u64; 9]], n: u64) -> &'a [[u64; 9]]
    ensures { result.now ≡ take n xs.now }
{
    let e = within(n, xs.len());
    &xs[0..e]
}

pub fn entries_in<'a>(xs: &'a [[u64; 3]], n: u64) -> &'a [[u64; 3]]
    ensures { result.now ≡ take n xs.now }
{
    let e = within(n, xs.len());
    &xs[0..e]
}

pub fn order_in<'a>(xs: &'a [u32], n: u64) -> &'a [u32]
    ensures { result.now ≡ take n xs.now }
{
    let e = within(n, xs.len());
    &xs[0..e]
}

pub fn figures_in<'a>(xs: &'a [[u64; 8]], n: u64) -> &'a [[u64; 8]]
    ensures { result.now ≡ take n xs.now }
{
    let e = within(n, xs.len());
    &xs[0..e]
}

pub fn extremes_in<'a>(xs: &'a [[f64; 3]], n: u64) -> &'a [[f64; 3]]
    ensures { result.now ≡ take n xs.now }
{
    let e = within(n, xs.len());
    &xs[0..e]
}

pub fn wholes_in<'a>(xs: &'a [[i64; 3]], n: u64) -> &'a [[i64; 3]]
    ensures { result.now ≡ take n xs.now }
{
    let e = within(n, xs.len());
    &xs[0..e]
}

pub fn counts_in<'a>(xs: &'a [u64], n: u64) -> &'a [u64]
    ensures { result.now ≡ take n xs.now }
{
    let e = within(n, xs.len());
    &xs[0..e]
}

pub fn totals_in<'a>(xs: &'a [u64], n: u64) -> &'a [u64]
    ensures { result.now ≡ take n (drop 10560 xs.now) }
{
    let a = within(10560, xs.len());
    let e = a + within(n, xs.len() - a);
    &xs[a..e]
}

pub fn values_in<'a>(xs: &'a [f64], n: u64) -> &'a [f64]
    ensures { result.now ≡ take n (drop 2200 xs.now) }
{
    let a = within(2200, xs.len());
    let e = a + within(n, xs.len() - a);
    &xs[a..e]
}

// The attributes that a line gave.
pub fn given<'a>(attrs: &'a [[u32; 2]], n: u64) -> &'a [[u32; 2]]
    ensures { result.now ≡ take n attrs.now }
{
    let e = within(n, attrs.len());
    &attrs[0..e]
}

// The first n keys of a filter.
pub fn keys<'a>(keys: &'a Keys, n: u64) -> &'a [u32]
    ensures { result.now ≡ take n keys.now }
{
    order_in(keys, n)
}

// The first n bounds of a part: 0 those that wait, 1 the configured ones, 2 the last collection's, from 3 on those of the kept points.
pub fn bounds_in<'a>(bounds: &'a [f64], part: usize, n: u64) -> &'a [f64]
    ensures { result.now ≡ take (min n 200) (drop (200 * min part 10) bounds.now) }
{
    let a = within(200 * within(part as u64, 10) as u64, bounds.len());
    let e = a + within(within(n, 200) as u64, bounds.len() - a);
    &bounds[a..e]
}
