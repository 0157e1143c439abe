// The values that sheets are run on: integers that wrap, and floats with all their corners.
use post::kinds::NumberKind;
use std::alloc::{AllocError, Global};
use std::{io, iter};

pub(crate) const INTEGERS: [i32; 8] = [0, 1, -1, 65_537, i32::MAX, i32::MIN, 7, 1_000_003];

pub(crate) const FLOATS: [f64; 8] = [0.0, 1.0, -1.0, 0.1, 1e308, f64::INFINITY, f64::NAN, -0.0];

/// A number kind with values to run on.
pub(crate) trait Sample: NumberKind + Default {
    /// What its values are called in print.
    const NAME: &'static str;

    /// So many elements.
    fn elements(heap: Global, count: usize) -> Result<Vec<Self>, AllocError>;

    /// Prints a value behind a space.
    fn print(self, rt: &HostRuntime) -> io::Result<()>;
}

impl Sample for i32 {
    const NAME: &'static str = "integers";

    fn elements(heap: Global, count: usize) -> Result<Vec<i32>, AllocError> {
        iter::successors(Some(1i32), |n| {
            Some(n.wrapping_mul(48_271).wrapping_add(11))
        })
        .take(count)
        .collect(heap)
    }

    fn print(self, rt: &HostRuntime) -> io::Result<()> {
        print!(rt; " {self}")
    }
}

/// A float is printed by its bits; not-a-number is one value.
impl Sample for f64 {
    const NAME: &'static str = "floats";

    fn elements(heap: Global, count: usize) -> Result<Vec<f64>, AllocError> {
        (0..count).map(|k| FLOATS[k % 11 % 8]).collect(heap)
    }

    fn print(self, rt: &HostRuntime) -> io::Result<()> {
        if self.is_nan() {
            print!(rt; " nan")
        } else {
            let bits = self.to_bits();
            print!(rt; " {bits:x}")
        }
    }
}
