// The sequential run.
ghost use Rattle.std.specs.Prelude.{◌≡◌, true, false, length, is_ok, MatchResult};
ghost use Rattle.nest.specs.Nests.{shown};
ghost use Rattle.layout.specs.Places.{total};
ghost use Rattle.sequential.specs.Refusals.{lengths_fit, refusal_number};
ghost use Rattle.sequential.specs.Run.{buffers_of, sequential_of};

use crate::refusal::RunRefusal;
use crate::statements::run_sweep;
use layout::table::Layout;
use nest::nest::Nest;
use post::kinds::NumberKind;

/// Runs a nest in sequence on the elements of its arrays, which lie in one buffer. The held buffer keeps, at the place
/// of each target, the value computed for it last.
pub fn sequential<T: NumberKind>(
    nest: &Nest,
    coefficients: &[T],
    arrays: &mut [T],
    held: &mut [T],
) -> Result<(), RunRefusal>
    ensures answer { MatchResult result (λ _. lengths_fit (total (shown nest.now).arrays) (length arrays.old) (length held.old) (length coefficients.now) ≡ true) (λ e. (lengths_fit (total (shown nest.now).arrays) (length arrays.old) (length held.old) (length coefficients.now) ≡ false) × (refusal_number e ≡ 8)) }
    ensures refused { is_ok result ≡ false → (arrays.new ≡ arrays.old) × (held.new ≡ held.old) }
    ensures ran { is_ok result ≡ true → (d : T) → buffers_of arrays.new held.new ≡ sequential_of T.NumberKind.sum T.NumberKind.product coefficients.now d (shown nest.now) (buffers_of arrays.old held.old) }
{
    let layout = Layout::new(nest);
    let total = layout.total();
    if arrays.len() != total || held.len() != total || coefficients.len() != 8 {
        return Err(RunRefusal::WrongLength);
    }
    for _ in 0..nest.sweeps() {
        run_sweep(&layout, coefficients, nest.statements(), arrays, held);
    }
    Ok(())
}
