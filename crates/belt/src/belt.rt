//! The belt: a post with one line of letters for all pairs, over a lent slice.
ghost use Rattle.std.specs.Prelude.{◌≡◌, ◌-◌, ◌*◌, ◌<◌, ◌≤◌, length, take};
ghost use Rattle.std.specs.List.{remove};
ghost use Rattle.belt.specs.Belt.{Kept, FirstOf, letters_for, belt_mail};
ghost use Rattle.post.specs.Made.{board_count, depth_for};
ghost use Rattle.post.specs.Mail.{empty_post};
ghost use Rattle.belt.specs.Tidy.{belt_orderly};

use crate::slots::Slot;
use post::answers::{PostRefusal, Posted};
use post::kinds::NumberKind;
use post::pair::Pair;
use post::service::Post;
use post::sizes::{pair_depth, served_boards};

/// Takes slot `gone` out of the first `used` slots: those behind it move up by one.
// Kept: a loop; with `copy_within` calls with many letters waiting took 1.7 times as long.
fn close_gap<T: Copy>(slots: &mut [Slot<T>], used: usize, gone: usize)
    requires { (gone < used) × (used ≤ length slots.old) }
    ensures { take (used - 1) slots.new ≡ remove (take used slots.old) gone }
{
    for k in gone + 1..used {
        slots[k - 1] = slots[k];
    }
}

/// A post over a lent slice of slots, of which the first `used` hold the waiting letters, oldest first.
/// A put, a take and the number waiting take time in proportion to the letters that wait.
#[derive(Drop)]
pub struct Belt<'a, T> {
    boards: usize,
    depth: usize,
    // Kept: no heap; the slots are lent, and those from `used` on hold no letter.
    used: usize,
    slots: &'a mut [Slot<T>],
    ghost room: { boards * boards * depth ≤ length slots.now },
    ghost held: { used ≤ length slots.now },
    ghost kept: { Kept boards depth (take used slots.now) },
}

impl<'a, T> Belt<'a, T> {
    /// A belt over a buffer, on which no letter waits, for 1 to 8 boards: the nearest to the count that is asked for.
    pub fn new(slots: &'a mut [Slot<T>], boards: usize) -> Belt<'a, T>
        ensures { belt_mail result.boards result.depth result.used result.slots.now ≡ empty_post (board_count boards) (depth_for (length slots.old) (board_count boards)) }
    {
        let depth = pair_depth(slots.len(), boards);
        let boards = served_boards(boards);
        Belt {
            boards,
            depth,
            used: 0,
            slots,
        }
    }

    /// How many letters of a pair wait.
    fn count_of(&self, pair: Pair) -> usize
        ensures { result ≡ length (letters_for pair.from pair.to (take self.now.used self.now.slots.now)) }
    {
        self.slots[..self.used]
            .iter()
            .filter(|slot| slot.pair == pair)
            .count()
    }

    /// The index of the first of the `used` slots that holds a letter of the pair.
    fn first_of(&self, pair: Pair) -> Option<usize>
        ensures { FirstOf pair.from pair.to (take self.now.used self.now.slots.now) result }
    {
        let slots = &self.slots[..self.used];
        let mut k = 0;
        // Kept: a rule of the project names this form here, a loop that yields by `break` the index that it looks for.
        let found = loop {
            if slots.get(k)?.pair == pair {
                break k;
            }
            k += 1;
        };
        Some(found)
    }
}

impl<'a, T: NumberKind> Post for Belt<'a, T> {
    type Letter = T;

    ghost mail = { λ p. belt_mail p.boards p.depth p.used p.slots.now };

    ghost orderly = { λ p. belt_orderly p.boards p.depth p.used p.slots.now p.kept };

    fn boards(&self) -> usize {
        self.boards
    }

    fn depth(&self) -> usize {
        self.depth
    }

    fn waiting(&self, pair: Pair) -> Result<usize, PostRefusal> {
        pair.served(self.boards)?;
        Ok(self.count_of(pair))
    }

    fn put(&mut self, pair: Pair, letter: T) -> Result<Posted, PostRefusal> {
        pair.served(self.boards)?;
        if self.count_of(pair) == self.depth {
            return Ok(Posted::Full);
        }
        self.slots[self.used] = Slot { pair, letter };
        self.used += 1;
        Ok(Posted::Joined)
    }

    fn take(&mut self, pair: Pair) -> Result<Option<T>, PostRefusal> {
        pair.served(self.boards)?;
        let Some(found) = self.first_of(pair) else {
            return Ok(None);
        };
        let letter = self.slots[found].letter;
        close_gap(self.slots, self.used, found);
        self.used -= 1;
        Ok(Some(letter))
    }
}
