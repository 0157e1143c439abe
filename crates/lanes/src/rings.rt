//! The letters of one pair as a ring, and the work on its lane of the slice, which is handed over.
ghost use Rattle.std.specs.Prelude.{◌≡◌, ◌+◌, ◌-◌, ◌<◌, ◌≤◌, [], ◌∷◌, ◌++◌, length, drop, if◌then◌else◌, ◌==◌, nat_lt, Ok};
ghost use Rattle.lanes.specs.Lanes.{Fits, in_ring};
ghost use Rattle.post.specs.Answers.{said_put, said_take};
ghost use Rattle.post.specs.Mail.{joined, full, oldest};

use post::answers::Posted;

/// Where a pair's oldest letter lies in the pair's lane, and how many letters wait.
#[derive(Clone, Copy, PartialEq, Eq, Debug)]
pub(crate) struct Ring {
    pub(crate) first: usize,
    pub(crate) count: usize,
}

impl Ring {
    /// Puts a letter behind the others of the lane, unless it is full.
    pub(crate) fn push<T: Copy>(&mut self, lane: &mut [T], letter: T) -> Posted
        requires short { length lane.old ≤ 4096 }
        requires fits { Fits (length lane.old) self.old }
        ensures fits { Fits (length lane.old) self.new }
        ensures answer { said_put {V = T} (Ok result) ≡ (if self.old.count == length lane.old then full else joined) }
        ensures after { in_ring self.new lane.new ≡ (if self.old.count == length lane.old then in_ring self.old lane.old else in_ring self.old lane.old ++ (letter ∷ [])) }
    {
        if self.count == lane.len() {
            return Posted::Full;
        }
        lane[round(self.first + self.count, lane.len())] = letter;
        self.count += 1;
        Posted::Joined
    }

    /// Takes the oldest letter of the lane, if one waits.
    pub(crate) fn pop<T: Copy>(&mut self, lane: &[T]) -> Option<T>
        requires fits { Fits (length lane.now) self.old }
        ensures fits { Fits (length lane.now) self.new }
        ensures answer { said_take (Ok result) ≡ oldest (in_ring self.old lane.now) }
        ensures after { in_ring self.new lane.now ≡ drop 1 (in_ring self.old lane.now) }
    {
        if self.count == 0 {
            return None;
        }
        let letter = lane[self.first];
        self.first = round(self.first + 1, lane.len());
        self.count -= 1;
        Some(letter)
    }
}

/// A place at most one round too far, brought back into a lane of `depth` places.
fn round(at: usize, depth: usize) -> usize
    requires { at < depth + depth }
    ensures value { result ≡ (if nat_lt at depth then at else at - depth) }
    ensures inside { result < depth }
{
    // A comparison: `%` would divide in each put and take.
    if at < depth { at } else { at - depth }
}
