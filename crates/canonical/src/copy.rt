// A canonical copy, and the calls on it.
ghost use Rattle.std.specs.Prelude.{◌+◌, ◌≤◌};
ghost use Rattle.canonical.specs.Sound.{Counted};

use crate::state::State;

pub mod calls;

// Not `Clone`: a copy is closed at most once. One that is not closed may be dropped; its output is then no copy.
#[derive(Drop)]
pub struct CanonicalCopy<'r, R> {
    registry: &'r R,
    state: State,
    ghost counted: { Counted state.extent },
    ghost within: { state.extent.length + 4 ≤ state.capacity },
    ghost small: { state.capacity ≤ 16777216 },
}
