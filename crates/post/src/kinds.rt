//! Number kinds: the values that boards compute with and letters carry.
ghost use Rattle.std.specs.Prelude.{◌≡◌, ◌+ℤ◌, ◌*ℤ◌};
ghost use Rattle.std.specs.Float.Ieee.{add, mul};
ghost use Rattle.std.specs.Float.{binary64};
ghost use Rattle.std.specs.Int.{int_wrap, w32};

/// Values that can be added and multiplied; what two values give depends on nothing else.
pub trait NumberKind: Copy {
    /// The sum of two values.
    ghost sum: { Self → Self → Self };

    /// The product of two values.
    ghost product: { Self → Self → Self };

    fn plus(self, other: Self) -> Self
        ensures { result ≡ sum self other };

    fn times(self, other: Self) -> Self
        ensures { result ≡ product self other };
}

/// Signed 32-bit integers: sum and product are taken modulo 2^32, into the range of the type.
impl NumberKind for i32 {
    ghost sum = { λ a b. int_wrap w32 (a +ℤ b) };

    ghost product = { λ a b. int_wrap w32 (a *ℤ b) };

    fn plus(self, other: i32) -> i32 {
        self.wrapping_add(other)
    }

    fn times(self, other: i32) -> i32 {
        self.wrapping_mul(other)
    }
}

/// IEEE 754 binary64: each operation rounds once, to the nearest value, ties to even.
/// Not-a-number is one value; minus zero and zero are two.
impl NumberKind for f64 {
    ghost sum = { add binary64 };

    ghost product = { mul binary64 };

    fn plus(self, other: f64) -> f64 {
        self + other
    }

    fn times(self, other: f64) -> f64 {
        self * other
    }
}
