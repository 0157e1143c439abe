//! Drivers for any set of boards.
ghost use Rattle.std.specs.Prelude.{◌≡◌, ℕ, ◌+◌, ◌^◌, ◌<◌, ◌≤◌};
ghost use Rattle.network.specs.Drivers.{LedByAny, WentRound};
ghost use Rattle.network.specs.Fixed.{asks};
ghost use Rattle.network.specs.Runs.{is_ran, is_ended, CameTo, in_turn};

use crate::answer::Answer;
use crate::boards::Boards;

/// How many answers to a list of requests were `Ran`, and how many `Ended`.
#[derive(Clone, Copy, PartialEq, Eq, Debug, Default)]
pub struct Tally {
    pub ran: usize,
    pub ended: usize,
}

impl Tally {
    /// The tally with one more answer counted.
    fn with(self, answer: Answer) -> Self
        requires { (self.ran + 1 < 2 ^ 64) × (self.ended + 1 < 2 ^ 64) }
        ensures ran { result.ran ≡ self.ran + is_ran answer }
        ensures ended { result.ended ≡ self.ended + is_ended answer }
    {
        match answer {
            Answer::Ran => Tally {
                ran: self.ran + 1,
                ..self
            },
            Answer::Ended => Tally {
                ended: self.ended + 1,
                ..self
            },
            Answer::Waiting | Answer::Refused => self,
        }
    }
}

/// Asks every board once, in turn.
// Kept: a loop beside that of `ask_all`; one for both would be no plainer, as its contract has to bound what an iterator gives.
fn round<N: Boards>(boards: &mut N) -> Tally
    ensures came_to { let before = N.fixed boards.old in CameTo (asks before) (N.state boards.old) (in_turn before.network.boards) result.ran result.ended (N.state boards.new) }
    ensures same { N.fixed boards.new ≡ N.fixed boards.old }
    ensures fewer_left { result.ran + N.left boards.new ≤ N.left boards.old }
{
    let mut tally = Tally::default();
    for board in 0..boards.count() {
        tally = tally.with(boards.request(board));
    }
    tally
}

/// Asks a list of requests, whichever boards it names.
pub fn ask_all<N: Boards>(boards: &mut N, requests: &[usize]) -> Tally
    ensures came_to { CameTo (asks (N.fixed boards.old)) (N.state boards.old) requests.now result.ran result.ended (N.state boards.new) }
    ensures led { let before = N.fixed boards.old in LedByAny before.network before.depth (N.state boards.old) requests.now }
    ensures same { N.fixed boards.new ≡ N.fixed boards.old }
{
    let mut total = Tally::default();
    for board in requests {
        total = total.with(boards.request(*board));
    }
    total
}

/// Goes round until no board runs in a round; whether every board has ended then.
pub fn run_until_quiet<N: Boards>(boards: &mut N) -> bool
    ensures went_round { let before = N.fixed boards.old in WentRound before.network before.depth (N.state boards.old) (N.state boards.new) result }
    ensures same { N.fixed boards.new ≡ N.fixed boards.old }
{
    let n = boards.count();
    loop {
        let tally = round(boards);
        if tally.ran == 0 {
            return tally.ended == n;
        }
    }
}
