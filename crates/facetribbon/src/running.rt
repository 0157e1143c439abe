// Runs a nest in sequence, and prints its arrays.
ghost use Rattle.std.specs.Prelude.{◌≡◌, IfOk, vec_len};

use crate::fault::Fault;
use layout::table::Layout;
use nest::nest::Nest;
use nest::terms::Array;
use sequential::run::sequential;
use std::alloc::{AllocError, Global};
use std::{io, iter};

// The numbers 1, 2, 3 and so on.
fn start_values(heap: Global, count: usize) -> Result<Vec<i32>, AllocError>
    ensures { IfOk result (λ v. vec_len v ≡ count) }
{
    iter::successors(Some(1i32), |n| Some(n.wrapping_add(1)))
        .take(count)
        .collect(heap)
}

fn print_array(
    rt: &HostRuntime,
    layout: &Layout,
    t: usize,
    array: &Array,
    values: &[i32],
) -> io::Result<()> {
    let number = t.saturating_add(1);
    print!(rt; "array{number}=")?;
    for x in 1..=array.rows {
        for y in 1..=array.columns {
            if x > 1 || y > 1 {
                print!(rt; ",")?;
            }
            let place = layout.place(t, x, y);
            let value = place.and_then(|k| values.get(k)).copied().unwrap_or(0);
            print!(rt; "{value}")?;
        }
    }
    println!(rt; "")
}

/// Runs a nest on elements 1, 2, 3 and so on through all arrays, with coefficient n being n, and prints each array.
pub(crate) fn run_in_sequence(rt: &HostRuntime, heap: Global, nest: &Nest) -> Result<(), Fault> {
    let layout = Layout::new(nest);
    let total = layout.total();
    let mut values = start_values(heap, total)?;
    let mut held = vec![in heap; 0i32; total]?;
    let coefficients: [i32; 8] = [0, 1, 2, 3, 4, 5, 6, 7];
    sequential(nest, &coefficients, &mut values, &mut held)?;
    for (t, array) in nest.arrays().iter().enumerate() {
        print_array(rt, &layout, t, array, &values)?;
    }
    Ok(())
}
