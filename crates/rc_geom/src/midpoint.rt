//! The middle of two nodes.

ghost use Rattle.std.specs.Prelude.{◌≡◌, ◌≤◌, ◌<◌, ◌≤ℤ◌, ◌<ℤ◌, ℤ};
ghost use Rattle.rc_geom.specs.Split.{middle, reach_to, IsCoordinate};

fn middle_of(lo: i32, hi: i32) -> i32
    requires lo { IsCoordinate lo }
    requires hi { IsCoordinate hi }
    ensures { result ≡ middle lo hi }
{
    (lo + hi + 1).div_euclid(2)
}

/// Where two neighbouring nodes at `lo < hi` part the unit squares between them: those below the answer are nearer to
/// `lo`, or as near to both, and the others are nearer to `hi`. The answer is half of `lo + hi + 1`, rounded down.
pub fn split(lo: i32, hi: i32) -> i32
    requires lo { IsCoordinate lo }
    requires hi { IsCoordinate hi }
    ensures is { result ≡ middle lo hi }
    ensures low { lo <ℤ hi → (s : ℤ) → s <ℤ result → reach_to s lo ≤ reach_to s hi }
    ensures high { lo <ℤ hi → (s : ℤ) → result ≤ℤ s → reach_to s hi < reach_to s lo }
{
    middle_of(lo, hi)
}
