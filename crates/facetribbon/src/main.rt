// Reads a sheet from standard input, and says what it describes or which fault it has.
#![tactic(auto)]

mod deals;
mod describe;
mod fault;
mod input;
mod running;

use deals::describe_deals;
use describe::describe;
use fault::Fault;
use input::sheet_bytes;
use running::run_in_sequence;
use sheet::reader::read_sheet;
use std::alloc::Global;
use std::io;

fn run(rt: &HostRuntime, heap: Global) -> Result<(), Fault> {
    let bytes = sheet_bytes(rt, heap)?;
    let nest = read_sheet(heap, &bytes)?;
    describe(rt, &nest)?;
    describe_deals(rt, &nest)?;
    run_in_sequence(rt, heap, &nest)
}

fn main(rt: HostRuntime) -> io::Result<()> {
    run(&rt, rt.alloc()).or_else(|fault| fault.report(&rt))
}
