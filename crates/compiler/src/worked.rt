// The sample nest, compiled.
ghost use Rattle.std.specs.Prelude.{◌≡◌};
ghost use Rattle.compiler.specs.Totals.{steps_of};
ghost use Rattle.compiler.specs.Worked.{sample_deals, SampleCompiled};
ghost use Rattle.owner_map.specs.declared.makes.Make.TheVariants.{Block};
ghost use Rattle.sequential.specs.Worked.{sample};

use nest::terms::Mode;

/// The steps of the sample nest: `seq` asks twice as many of it as `all`.
pub fn steps_of_sample(mode: Mode) -> usize
    ensures value { result ≡ steps_of (sample mode) (sample_deals Block) }
    ensures cases { SampleCompiled }
{
    match mode {
        Mode::All => 20,
        Mode::Seq => 40,
    }
}
