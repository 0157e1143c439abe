// The depth that the post must have.
ghost use Rattle.std.specs.Prelude.{◌≡◌, ◌≤◌};
ghost use Rattle.compiler.specs.LetterCounts.{Square};
ghost use Rattle.compiler.specs.PairRooms.{greatest_room};
ghost use Rattle.compiler.specs.Totals.{room_for};

use crate::parts::PairLetters;
use nest::terms::Mode;

/// The room that the letters of one pair want in one run of a statement: for all at once, or for one after the other.
fn room_for(mode: Mode, letters: usize) -> usize
    ensures { result ≡ room_for mode letters }
{
    match mode {
        Mode::All => letters,
        Mode::Seq => letters.min(1),
    }
}

/// The room that a statement wants for the pair that wants most.
pub(crate) fn greatest_room(mode: Mode, boards: usize, pairs: &PairLetters) -> usize
    requires { (boards ≤ 8) × Square pairs.now.counts }
    ensures { result ≡ greatest_room mode boards pairs.now.counts }
{
    let mut greatest: usize = 0;
    // Kept: by two numbers; a chain over rows and letters, each cut to the boards of the grid, would be no plainer.
    for from in 0..boards {
        for to in 0..boards {
            let room = room_for(mode, pairs.counts[from][to]);
            greatest = greatest.max(room);
        }
    }
    greatest
}
