//! Running code that is a network: what it means, and that its requests are those of its meaning.
ghost use Rattle.std.specs.Prelude.{◌≡◌, ℕ, ◌+◌, ◌≤◌};
ghost use Rattle.network.specs.Fixed.{Fixed, asks};
ghost use Rattle.network.specs.Network.{State};
ghost use Rattle.network.specs.Runs.{is_ran};

use crate::answer::Answer;

/// A set of boards that answers requests.
pub trait Boards {
    /// What the boards pass to each other.
    type Letter;
    /// What one board keeps for itself.
    type Own;

    // what stays: the network that it is, the depth of its rows, and the ghost names of what it holds by reference
    ghost fixed: { Self → Fixed Self.Letter Self.Own };

    // the state that it is in
    ghost state: { Self → State Self.Letter Self.Own };

    // at most how many steps can still run
    ghost left: { Self → ℕ };

    /// How many boards there are.
    fn count(&self) -> usize
        ensures { result ≡ (fixed self.now).network.boards };

    /// Asks a board for its next step.
    fn request(&mut self, board: usize) -> Answer
        ensures asked { (result, state self.new) ≡ asks (fixed self.old) (state self.old) board }
        ensures same { fixed self.new ≡ fixed self.old }
        ensures fewer_left { is_ran result + left self.new ≤ left self.old };
}
