// Scales and signed bucket indices, as callers and points hold them, beside levels and bins.
ghost use Rattle.std.specs.Prelude.{◌≡◌};
ghost use Rattle.index.specs.Signed.{level_answer, scale_answer, index_answer, value_index};
ghost use Rattle.index.specs.Inner.{bin_index, signed_at};

// What an f64 has at a scale: no such scale, not a finite number, zero, or the Data Model's index.
#[derive(Clone, Copy)]
pub enum Index {
    NoScale,
    NotFinite,
    Zero,
    At { negative: bool, index: i32 },
}

// The level of a scale, none outside -10 to 10.
pub fn level_of(scale: i32) -> Option<u32>
    ensures { result ≡ level_answer scale }
{
    if scale < -10 {
        return None;
    }
    if 10 < scale {
        return None;
    }
    Some((scale + 10) as u32)
}

// The scale of a level, none above the finest.
pub fn scale_of(level: u32) -> Option<i32>
    ensures { result ≡ scale_answer level }
{
    if crate::FINEST < level {
        return None;
    }
    Some((level as i32) - 10)
}

// The index of a bin at a level, none where the level has no such bin.
pub fn index_of(level: u32, bin: u32) -> Option<i32>
    ensures { result ≡ index_answer level bin }
{
    if crate::FINEST < level {
        return None;
    }
    if 3u32 << level <= bin {
        return None;
    }
    Some((bin as i32) - ((2u32 << level) as i32))
}

// The sign of v and its index at a scale, the Data Model's; NoScale outside -10 to 10, NotFinite, Zero.
pub fn get_index(v: f64, scale: i32) -> Index
    ensures { result ≡ value_index v scale }
{
    let found = level_of(scale);
    match found {
        None => Index::NoScale,
        Some(level) => signed_bin(level, crate::get_bin(v, level)),
    }
}

fn signed_bin(level: u32, bin: crate::Bin) -> Index
    ensures { result ≡ bin_index level bin }
{
    match bin {
        crate::Bin::NoLevel => Index::NoScale,
        crate::Bin::NotFinite => Index::NotFinite,
        crate::Bin::Zero => Index::Zero,
        crate::Bin::At { negative, bin: at } => signed_at(negative, index_of(level, at)),
    }
}

fn signed_at(negative: bool, found: Option<i32>) -> Index
    ensures { result ≡ signed_at negative found }
{
    match found {
        None => Index::NoScale,
        Some(index) => Index::At { negative, index },
    }
}
