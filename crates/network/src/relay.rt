//! A relay of up to eight boards that pass a sum on.
ghost use Rattle.std.specs.Prelude.{◌≡◌, ℕ, ◌-◌, ◌<◌, ◌≤◌, length, MatchOption, slice_index_or};
ghost use Rattle.network.specs.Desks.{owns, letters};
ghost use Rattle.network.specs.Fixed.{owned};
ghost use Rattle.network.specs.Relaying.{MadeOf, Relayed, relay_of, relay_state, relay_left};
ghost use Rattle.network.specs.declared.relay.Station.TheVariants.{Adds, Done};

use crate::answer::Answer;
use crate::boards::Boards;
use crate::desk::Desk;
use crate::driver::run_until_quiet;

/// One board of the relay.
#[derive(Clone, Copy, PartialEq, Eq, Debug)]
pub enum Station {
    /// It adds its value next, to the sum of the station before; the first station to nothing.
    Adds(u32),
    /// It passes this sum on next; the last station keeps it.
    Holds(u32),
    /// It has ended, with this sum.
    Done(u32),
}

/// The first `count` stations, and the letter on the way from each to the next: rows of depth 1.
// Kept: a count beside the desks, since how many stations there are is known at run time only, and a relay is made without a heap.
#[derive(Clone, Copy, PartialEq, Eq, Debug)]
pub struct Relay {
    pub count: usize,
    pub desks: [Desk<Station>; 8],
    ghost room: { (count ≤ 8) × (length desks ≡ 8) },
}

impl Relay {
    /// A station for each value, before its first step; none for more than eight values.
    pub fn new(values: &[u32]) -> Option<Relay>
        ensures { MatchOption result (8 < length values.now) (λ x. MadeOf values.now x.count (owns x.desks) (letters x.desks)) }
    {
        if values.len() > 8 {
            return None;
        }
        let mut desks = [Desk::new(Station::Adds(0)); 8];
        // Kept: an index, since of what a loop over `iter_mut().zip(..)` wrote a proof knows nothing.
        for (board, value) in values.iter().enumerate() {
            desks[board].own = Station::Adds(*value);
        }
        Some(Relay {
            count: values.len(),
            desks,
        })
    }

    /// The sum that the last station has ended with.
    fn result(&self) -> Option<u32>
        ensures { MatchOption result ((s : ℕ) → slice_index_or (owns self.now.desks) (self.now.count - 1) (Adds 0) ≡ Done s → self.now.count ≡ 0) (λ s. (0 < self.now.count) × (slice_index_or (owns self.now.desks) (self.now.count - 1) (Adds 0) ≡ Done s)) }
    {
        let last = self.count.checked_sub(1)?;
        let Station::Done(sum) = self.desks[last].own else {
            return None;
        };
        Some(sum)
    }
}

/// The sum of up to eight values, which wraps, as a relay of so many boards finds it; none for no values or for more.
pub fn relayed(values: &[u32]) -> Option<u32>
    ensures { Relayed values.now result }
{
    let mut relay = Relay::new(values)?;
    let _ = run_until_quiet(&mut relay);
    relay.result()
}

impl Boards for Relay {
    type Letter = u32;

    type Own = Station;

    ghost fixed = { λ x. owned (relay_of x.count) 1 };

    ghost state = { λ x. relay_state (owns x.desks) (letters x.desks) };

    ghost left = { λ x. relay_left (owns x.desks) };

    #[tactic(auto, unfolding(crate::specs::Relaying::relay_of))]
    fn count(&self) -> usize {
        self.count
    }

    fn request(&mut self, board: usize) -> Answer {
        if board >= self.count {
            return Answer::Refused;
        }
        let Desk { own, letter } = self.desks[board];
        match (own, letter) {
            (Station::Adds(value), _) if board == 0 => {
                self.desks[board].own = Station::Holds(value);
                Answer::Ran
            }
            (Station::Adds(value), _) => {
                let Some(sum) = self.desks[board - 1].letter.take() else {
                    return Answer::Waiting;
                };
                self.desks[board].own = Station::Holds(value.wrapping_add(sum));
                Answer::Ran
            }
            (Station::Holds(sum), _) if board + 1 == self.count => {
                self.desks[board].own = Station::Done(sum);
                Answer::Ran
            }
            (Station::Holds(_), Some(_)) => Answer::Waiting,
            (Station::Holds(sum), None) => {
                self.desks[board] = Desk {
                    own: Station::Done(sum),
                    letter: Some(sum),
                };
                Answer::Ran
            }
            (Station::Done(_), _) => Answer::Ended,
        }
    }
}
