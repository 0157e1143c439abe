// A nest, which keeps every range of the format and stays inside its arrays.
ghost use Rattle.std.specs.Prelude.{◌≡◌, true};
ghost use Rattle.nest.specs.Sound.{nest_kept};
ghost use Rattle.nest.specs.Views.{said_all};

use crate::terms::{Array, Grid, Statement};

/// A loop nest over arrays dealt out over a grid of boards.
#[derive(Drop)]
pub struct Nest {
    pub grid: Grid,
    pub arrays: Vec<Array>,
    pub sweeps: usize,
    pub statements: Vec<Statement>,
    ghost kept: { nest_kept grid arrays.items sweeps (said_all statements) ≡ true },
}
