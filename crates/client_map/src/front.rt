ghost use Rattle.std.specs.Prelude.{◌≤◌};

use owner_map::Numbers;

pub mod answers;
pub mod loading;

/// Board 0 owns the first `front` positions; the others are dealt one by one to all boards in turn.
#[derive(Clone, Copy)]
pub struct FrontLoaded {
    numbers: Numbers,
    front: usize,
    ghost part: { front ≤ numbers.length },
}
