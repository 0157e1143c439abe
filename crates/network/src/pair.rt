//! Two boards that exchange their values.
ghost use Rattle.std.specs.Prelude.{◌≡◌, [], ◌∷◌, length, None};
ghost use Rattle.network.specs.Desks.{desk, owns, letters};
ghost use Rattle.network.specs.Exchange.{partner, exchange, exchange_state, exchange_left};
ghost use Rattle.network.specs.Fixed.{owned};
ghost use Rattle.network.specs.Request.{request};
ghost use Rattle.network.specs.Runs.{Complete};
ghost use Rattle.network.specs.declared.pair.Phase.TheVariants.{Putting};

use crate::answer::Answer;
use crate::boards::Boards;
use crate::desk::Desk;
use crate::driver::run_until_quiet;

/// How far a board of the pair has come.
#[derive(Clone, Copy, PartialEq, Eq, Debug)]
pub enum Phase {
    /// It puts its value to the other board next.
    Putting,
    /// It takes the other's value next.
    Taking,
    /// It has ended.
    Done,
}

/// One board of the pair.
#[derive(Clone, Copy, PartialEq, Eq, Debug)]
pub struct Partner {
    pub phase: Phase,
    pub value: u32,
}

/// The two boards, and the letter on the way from each: rows of depth 1.
#[derive(Clone, Copy, PartialEq, Eq, Debug)]
pub struct Pair {
    pub desks: [Desk<Partner>; 2],
    ghost both: { length desks ≡ 2 },
}

impl Pair {
    /// The two boards before their first step. They can run to their end: that is, here is a network with a complete list.
    pub fn new(first: u32, second: u32) -> Pair
        ensures desks { result.desks ≡ desk (partner Putting first) None ∷ desk (partner Putting second) None ∷ [] }
        ensures complete { Complete (request exchange 1) 2 (exchange_state (owns result.desks) (letters result.desks)) (0 ∷ 1 ∷ 0 ∷ 1 ∷ []) }
    {
        let start = |value| {
            Desk::new(Partner {
                phase: Phase::Putting,
                value,
            })
        };
        Pair {
            desks: [start(first), start(second)],
        }
    }
}

/// The two values after an exchange between two boards.
pub fn exchanged(first: u32, second: u32) -> (u32, u32)
    ensures { result ≡ (second, first) }
{
    let mut pair = Pair::new(first, second);
    let _ = run_until_quiet(&mut pair);
    let [left, right] = pair.desks;
    (left.own.value, right.own.value)
}

impl Boards for Pair {
    type Letter = u32;

    type Own = Partner;

    ghost fixed = { λ _. owned exchange 1 };

    ghost state = { λ x. exchange_state (owns x.desks) (letters x.desks) };

    ghost left = { λ x. exchange_left (owns x.desks) };

    #[tactic(auto, unfolding(crate::specs::Exchange::exchange))]
    fn count(&self) -> usize {
        2
    }

    fn request(&mut self, board: usize) -> Answer {
        if board >= 2 {
            return Answer::Refused;
        }
        let Desk { own, letter } = self.desks[board];
        match (own.phase, letter) {
            (Phase::Putting, Some(_)) => Answer::Waiting,
            (Phase::Putting, None) => {
                self.desks[board] = Desk {
                    own: Partner {
                        phase: Phase::Taking,
                        ..own
                    },
                    letter: Some(own.value),
                };
                Answer::Ran
            }
            (Phase::Taking, _) => {
                let Some(letter) = self.desks[1 - board].letter.take() else {
                    return Answer::Waiting;
                };
                self.desks[board].own = Partner {
                    phase: Phase::Done,
                    value: letter,
                };
                Answer::Ran
            }
            (Phase::Done, _) => Answer::Ended,
        }
    }
}
