//! The raster of moments.
ghost use Rattle.std.specs.Prelude.{◌<◌, ◌≤◌, ◌-◌};
ghost use Rattle.place_plans.specs.Rounding.{IsOnRaster, IsStep};

/// A moment at which to look for an end, of one that is later than now: behind now, and at the end
/// or somewhat before it.
pub fn look_at(now: u64, end: u64) -> u64
    requires { now < end }
    ensures behind { now < result }
    ensures by { result ≤ end }
    ensures raster { IsOnRaster (end - now) end result }
{
    let step = step_for(end - now);
    end - end % step
}

// A power of two of at most a 64th of a distance, and more than a 128th, or 1.
fn step_for(distance: u64) -> u64
    ensures { IsStep distance result }
{
    let mut step = 1;
    for _power in 0..63u64 {
        if distance / 128 < step {
            return step;
        }
        step *= 2;
    }
    step
}
