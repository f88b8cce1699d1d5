// The rank of a mantissa among the bounds of scale 10's buckets.
ghost use Rattle.std.specs.Prelude.{◌≤◌, ◌<◌, ◌^◌};
ghost use Rattle.index.specs.Ranked.{Ranked};

// How many bounds lie below m.
pub fn rank(m: u64) -> u64
    requires { (2 ^ 52 ≤ m) × (m < 2 ^ 53) }
    ensures { Ranked m result }
{
    let near = crate::guess::guess(m);
    if bounds::bound(near) < m {
        return near + 1;
    }
    near
}
