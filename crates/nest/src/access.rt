// What a nest tells of itself.
ghost use Rattle.std.specs.Prelude.{◌≡◌, map};
ghost use Rattle.nest.specs.Nests.{shown};
ghost use Rattle.nest.specs.Views.{said};

use crate::nest::Nest;
use crate::terms::{Array, Grid, Statement};

impl Nest {
    /// The boards, by rows and by columns.
    pub fn grid(&self) -> Grid
        ensures { result ≡ (shown self.now).grid }
    {
        self.grid
    }

    /// The arrays, in the order of the sheet.
    pub fn arrays(&self) -> &[Array]
        ensures { result.now ≡ (shown self.now).arrays }
    {
        self.arrays.as_slice()
    }

    /// How often all statements run.
    pub fn sweeps(&self) -> usize
        ensures { result ≡ (shown self.now).sweeps }
    {
        self.sweeps
    }

    /// The statements, in the order in which they run.
    pub fn statements(&self) -> &[Statement]
        ensures { map said result.now ≡ (shown self.now).statements }
    {
        self.statements.as_slice()
    }
}
