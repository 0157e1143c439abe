//! A ring of boards over lent slices, of any number and with rows of any depth, that pass tokens round.
ghost use Rattle.std.specs.Prelude.{◌≡◌, ◌<◌, [], ◌∷◌, length};
ghost use Rattle.network.specs.Ringing.{Passed, board_before, ring_of, ring_state, ring_left};

use crate::answer::Answer;
use crate::boards::Boards;
use crate::driver::run_until_quiet;

/// One board of the ring: how often it still passes a token on, and whether it holds one.
#[derive(Clone, Copy, PartialEq, Eq, Debug)]
pub struct Seat {
    pub laps: u32,
    pub holds: bool,
}

/// The boards, and how many tokens are on the way from each to the next, at most `depth`.
// Kept: two slices, since a caller of `pass_round` lends them apart, and gets no answer where they differ in length.
#[derive(Drop)]
pub struct Ring<'a> {
    pub seats: &'a mut [Seat],
    pub tokens: &'a mut [u32],
    pub depth: u32,
    ghost level: { length tokens.now ≡ length seats.now },
}

/// Passes tokens round until no board can go on; whether every board has ended then. There must be a count of tokens for
/// each board: otherwise nothing is done, and there is no answer.
pub fn pass_round(seats: &mut [Seat], tokens: &mut [u32], depth: u32) -> Option<bool>
    ensures { Passed seats.old tokens.old depth seats.new tokens.new result }
{
    if tokens.len() != seats.len() {
        return None;
    }
    let mut ring = Ring {
        seats,
        tokens,
        depth,
    };
    Some(run_until_quiet(&mut ring))
}

/// The board before another in a ring of so many.
fn before(board: usize, count: usize) -> usize
    requires { board < count }
    ensures { result ≡ board_before count board }
{
    if board == 0 { count - 1 } else { board - 1 }
}

impl<'a> Boards for Ring<'a> {
    type Letter = ();

    type Own = Seat;

    ghost fixed = { λ x. record { network = ring_of (length x.seats.now); depth = x.depth; lent = x.seats.ghost_name ∷ x.tokens.ghost_name ∷ [] } };

    ghost state = { λ x. ring_state (length x.seats.now) x.seats.now x.tokens.now };

    ghost left = { λ x. ring_left x.seats.now };

    #[tactic(auto, unfolding(crate::specs::Ringing::ring_of))]
    fn count(&self) -> usize {
        self.seats.len()
    }

    fn request(&mut self, board: usize) -> Answer {
        if board >= self.seats.len() {
            return Answer::Refused;
        }
        let Seat { laps, holds } = self.seats[board];
        if laps == 0 {
            return Answer::Ended;
        }
        if holds {
            if self.tokens[board] >= self.depth {
                return Answer::Waiting;
            }
            self.tokens[board] += 1;
            self.seats[board] = Seat {
                laps: laps - 1,
                holds: false,
            };
        } else {
            let from = before(board, self.seats.len());
            let Some(rest) = self.tokens[from].checked_sub(1) else {
                return Answer::Waiting;
            };
            self.tokens[from] = rest;
            self.seats[board].holds = true;
        }
        Answer::Ran
    }
}
