// Totals of rows modulo 2^64, beside a number that no count is above: where that is small, nothing has wrapped.
ghost use Rattle.std.specs.Prelude.{◌≡◌, ◌+◌, ◌*◌, ◌%◌, ◌^◌, ◌≤◌, length, take};
ghost use Rattle.laws.specs.Counting.{total};
ghost use Rattle.exponential.specs.Series.{most_size};

#[derive(Clone, Copy)]
pub struct Wrapped {
    pub sum: u64,
    pub most: u64,
}

// The first n counts added to what is there. No test and no carry: two vector instructions for two counts.
pub fn add_row(counts: &[u64], n: usize, from: Wrapped) -> Wrapped
    requires { (n ≤ length counts.now) × (n ≤ most_size) }
    ensures sum_value { result.sum ≡ (from.sum + total (take n counts.now)) % 2 ^ 64 }
    ensures most_le_most { (from.most ≤ result.most) × (total (take n counts.now) ≤ n * result.most) }
{
    let mut sum = from.sum;
    let mut most = from.most;
    for &x in &counts[..n] {
        sum = sum.wrapping_add(x);
        most |= x;
    }
    Wrapped { sum, most }
}
