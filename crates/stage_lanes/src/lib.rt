//! Several lines side by side, over which parts are dealt in turn and from which they are taken in
//! turn.
#![tactic(auto)]

ghost use Rattle.std.specs.Prelude.{◌≡◌, ◌<◌};
ghost use Rattle.stage_lanes.specs.Lanes.{after};

mod dealer;
mod lane_steps;
mod picker;
mod ready;

pub use dealer::Dealer;
pub use picker::Picker;
pub use ready::Ready;

// The lane after this one.
fn following(count: usize, lane: usize) -> usize
    requires { lane < count }
    ensures next { result ≡ after count lane }
    ensures below { result < count }
{
    if lane + 1 == count { 0 } else { lane + 1 }
}
