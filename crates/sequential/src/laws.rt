// What the run of a statement means, in the words of its iterations.
ghost use Rattle.std.specs.Prelude.{◌≡◌, [], ◌∷◌, length, slice_index};
ghost use Rattle.nest.specs.Nests.{shown};
ghost use Rattle.nest.specs.Terms.{Said};
ghost use Rattle.sequential.specs.Laws.{In, TargetsApart, ModesMean};
ghost use Rattle.sequential.specs.Worked.{sample_after, SampleRuns};

use nest::nest::Nest;
use nest::terms::Mode;

/// How many statements a nest has. Of each of them, whatever the values are: no two iterations have one target; run as
/// a FORALL, every target gets the value computed from the elements before the statement and nothing else changes; and
/// where no read is of the array that is written, a DO leaves the same as a FORALL.
pub fn statements_keep_their_meaning<V>(nest: &Nest) -> usize
    ensures number { result ≡ length (shown nest.now).statements }
    ensures apart { (s : Said) → In s (shown nest.now).statements → TargetsApart (shown nest.now).arrays s }
    ensures modes { (s : Said) → In s (shown nest.now).statements → ModesMean V (shown nest.now).arrays s }
{
    nest.statements().len()
}

/// The last element of the sample nest after its run, from 11, 22, 33, 44, 55, 66.
pub fn last_of_sample(mode: Mode) -> usize
    ensures value { result ≡ slice_index (sample_after mode (11 ∷ 22 ∷ 33 ∷ 44 ∷ 55 ∷ 66 ∷ [])) 5 }
    ensures cases { SampleRuns }
{
    match mode {
        Mode::All => 55,
        Mode::Seq => 11,
    }
}
