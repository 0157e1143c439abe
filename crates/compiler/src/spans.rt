// The spans of a board.
ghost use Rattle.std.specs.Prelude.{◌≡◌};
ghost use Rattle.owner_map.specs.Meaning.{Board, Bound, below};
ghost use Rattle.compiler.specs.Making.{Countable, Spannable};
ghost use Rattle.compiler.specs.Seats.{seat_of};
ghost use Rattle.compiler.specs.Spans.{deal_for, self_for, span_of};

use crate::span::{Owning, Span};
use crate::view::BoardView;
use dealing::dimension::Dimension;
use nest::terms::Range;
use owner_map::OwnerMap;

/// How many positions a board of the map owns below a bound.
fn count_in<M: OwnerMap>(map: &M, board: usize, bound: usize) -> usize
    requires { Board (M.OwnerMap.meaning map.now) board × Bound (M.OwnerMap.meaning map.now) bound }
    ensures { result ≡ below (M.OwnerMap.meaning map.now) board bound }
{
    map.count_below(board, bound).unwrap()
}

impl<'a> BoardView<'a> {
    /// How many positions of a dimension the board owns below a bound.
    fn count_below(&self, by: Owning, bound: usize) -> usize
        requires { Countable (seat_of self.now) by bound }
        ensures { result ≡ below (deal_for (seat_of self.now) by) (self_for (seat_of self.now) by) bound }
    {
        let rows = self.fitted.nest().grid().rows;
        match by.dimension {
            Dimension::Rows => {
                let map = self.fitted.row_map(by.array).unwrap();
                count_in(map, self.board % rows, bound)
            }
            Dimension::Columns => {
                let map = self.fitted.column_map(by.array).unwrap();
                count_in(map, self.board / rows, bound)
            }
        }
    }

    /// The span over a loop range that is owned so, or a plain one.
    pub(crate) fn span_of(&self, owning: Option<Owning>, range: Range) -> Span
        requires { Spannable (seat_of self.now) owning range }
        ensures { result ≡ span_of (seat_of self.now) owning range }
    {
        match owning {
            None => Span {
                owning,
                first: range.low,
                end: range.high + 1,
            },
            Some(by) => {
                let low = by.subscript.position(range.low).unwrap();
                let past = by.subscript.position(range.high).unwrap() + 1;
                Span {
                    owning,
                    first: self.count_below(by, low),
                    end: self.count_below(by, past),
                }
            }
        }
    }
}
