//! How many boards a post that is made from a buffer serves, and how deep it is.
ghost use Rattle.std.specs.Prelude.{◌≡◌, ◌*◌, ◌≤◌};
ghost use Rattle.post.specs.Made.{board_count, depth_for};

/// The board count for the count that was asked for: 1 to 8.
pub fn served_boards(asked: usize) -> usize
    ensures { result ≡ board_count asked }
{
    asked.clamp(1, 8)
}

/// How many letters of one pair a buffer of `size` letters can hold, at most 4096,
/// for the board count that was asked for.
pub fn pair_depth(size: usize, asked: usize) -> usize
    ensures value { result ≡ depth_for size (board_count asked) }
    ensures within { board_count asked * board_count asked * result ≤ size }
    ensures shallow { result ≤ 4096 }
{
    let boards = served_boards(asked);
    (size / (boards * boards)).min(4096)
}
