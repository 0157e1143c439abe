// The schedule of a nest, as a law.
ghost use Rattle.std.specs.Prelude.{◌≡◌, nat_le};
ghost use Rattle.schedule.specs.Laws.{OneScheduleCompletes};

/// Whether a post of some depth has the room that a nest of a compiled depth wants. Then one list of requests completes the
/// nest: it is as long as the compiled steps, puts and takes the compiled letters, and ends in the sequential run; for every
/// nest, all deals that fit, and every type of values with a sum and a product.
pub fn room_enough<V>(compiled: usize, depth: usize) -> bool
    ensures answer { result ≡ nat_le compiled depth }
    ensures law { OneScheduleCompletes V }
{
    compiled <= depth
}
