// A copy of a nest.
ghost use Rattle.std.specs.Prelude.{◌≡◌};
ghost use Rattle.nest.specs.Nests.{shown};

use crate::nest::Nest;
use std::alloc::AllocError;

/// The copy says the same.
impl Clone for Nest {
    ghost is_clone = { λ nest copy. shown copy ≡ shown nest };

    fn clone(&self) -> Result<Nest, AllocError> {
        let arrays = self.arrays.clone()?;
        let statements = self.statements.clone()?;
        Ok(Nest {
            grid: self.grid,
            arrays,
            sweeps: self.sweeps,
            statements,
        })
    }
}
