//! Questions that any map answers, and the laws of its meaning that they rest on.
ghost use Rattle.std.specs.Prelude.{◌≡◌, ◌-◌, Some, ◌==◌};
ghost use Rattle.owner_map.specs.Answer.{Given};
ghost use Rattle.owner_map.specs.Laws.{PlaceUndone, PositionUndone, place_again, RanksWithoutGap, CountsAddUp, PlaceDetermines, CountsGrow, PositionsRise};
ghost use Rattle.owner_map.specs.Meaning.{Position, Board, Bound, share, below};

use crate::questions::OwnerMap;
use crate::refusal::Refusal;

/// The position at the place of `x`, which is `x` again.
#[tactic(auto, using(crate::specs::Deals::place_undone))]
pub fn position_of_place<M: OwnerMap>(map: &M, x: usize) -> Result<Option<usize>, Refusal>
    ensures answer { Given (Position (M.meaning map.now) x) (λ p. p ≡ Some x) result }
    ensures law { PlaceUndone (M.meaning map.now) }
{
    let (owner, rank) = map.place(x)?;
    map.position(owner, rank)
}

/// The place of the position that `board` owns at `rank`, which is `board` and `rank` again, or none
/// if the board owns too few.
pub fn place_of_position<M: OwnerMap>(
    map: &M,
    board: usize,
    rank: usize,
) -> Result<Option<(usize, usize)>, Refusal>
    ensures answer { Given (Board (M.meaning map.now) board) (λ p. p ≡ place_again (M.meaning map.now) board rank) result }
    ensures law { PositionUndone (M.meaning map.now) }
{
    let position = map.position(board, rank)?;
    position.map(|x| map.place(x)).transpose()
}

/// How many positions `board` owns in all. Its ranks are the numbers below that.
pub fn owned_count<M: OwnerMap>(map: &M, board: usize) -> Result<usize, Refusal>
    ensures answer { Given (Board (M.meaning map.now) board) (λ c. c ≡ share (M.meaning map.now) board) result }
    ensures law { RanksWithoutGap (M.meaning map.now) }
{
    map.count_below(board, map.length() + 1)
}

/// Whether `x` and `y` have one owner and one rank, which only a position and itself have.
#[tactic(auto, using(crate::specs::Deals::place_determines))]
pub fn same_place<M: OwnerMap>(map: &M, x: usize, y: usize) -> Result<bool, Refusal>
    ensures answer { Given (Position (M.meaning map.now) x × Position (M.meaning map.now) y) (λ same. same ≡ (x == y)) result }
    ensures law { PlaceDetermines (M.meaning map.now) }
{
    let place = map.place(x)?;
    let other = map.place(y)?;
    Ok(place == other)
}

/// How many positions below `bound` any board owns: all of them.
#[tactic(auto, using(crate::specs::Deals::counts_add_up))]
pub fn counted_by_all<M: OwnerMap>(map: &M, bound: usize) -> Result<usize, Refusal>
    ensures answer { Given (Bound (M.meaning map.now) bound) (λ c. c ≡ bound - 1) result }
    ensures law { CountsAddUp (M.meaning map.now) }
{
    let mut total = 0;
    for board in 0..map.boards() {
        total += map.count_below(board, bound)?;
    }
    Ok(total)
}

/// How many positions from `low` up to and without `high` `board` owns. Their ranks follow one another.
#[tactic(auto, using(crate::specs::Deals::counts_grow, crate::specs::Deals::positions_rise))]
pub fn owned_between<M: OwnerMap>(
    map: &M,
    board: usize,
    low: usize,
    high: usize,
) -> Result<usize, Refusal>
    ensures answer { Given (Board (M.meaning map.now) board × Bound (M.meaning map.now) low × Bound (M.meaning map.now) high) (λ c. c ≡ below (M.meaning map.now) board high - below (M.meaning map.now) board low) result }
    ensures grow { CountsGrow (M.meaning map.now) }
    ensures rise { PositionsRise (M.meaning map.now) }
{
    let first = map.count_below(board, low)?;
    let end = map.count_below(board, high)?;
    Ok(end.saturating_sub(first))
}
