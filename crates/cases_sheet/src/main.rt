// Reads each sheet that its arguments name, and prints what it says or its fault.
#![tactic(auto)]

mod written;

use nest::nest::Nest;
use nest::terms::Grid;
use nest::told::Told;
use sheet::reader::read_sheet;
use std::{env, fs, io};
use written::{print_array, print_statement};

fn print_nest(rt: &HostRuntime, nest: &Nest) -> io::Result<()> {
    let Grid { rows, columns } = nest.grid();
    let sweeps = nest.sweeps();
    print!(rt; "grid={rows},{columns}")?;
    for array in nest.arrays() {
        print_array(rt, *array)?;
    }
    print!(rt; " sweeps={sweeps}")?;
    for s in nest.statements() {
        print_statement(rt, s)?;
    }
    println!(rt; "")
}

fn run(rt: &HostRuntime) -> anyhow::Result<()> {
    for name in env::args(rt)?.skip(1) {
        let bytes = fs::read(rt, name.as_str())?;
        print!(rt; "{name}: ")?;
        match read_sheet(rt.alloc(), bytes.as_slice()) {
            // A copy is printed, so that each sheet shows that a nest can be copied and says the same.
            Ok(nest) => print_nest(rt, &nest.clone()?)?,
            Err(fault) => rt.println(Told::from(fault))?,
        }
    }
    Ok(())
}

fn main(rt: HostRuntime) -> anyhow::Result<()> {
    run(&rt)
}
