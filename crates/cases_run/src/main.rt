// Runs each sheet that its arguments name in sequence, on integers that wrap and on floats with all their corners,
// and prints every element and every held value. Also scatters its elements over the boards and gathers them back.
#![tactic(auto)]

mod dealt;
mod samples;

use dealt::Deal;
use layout::table::Layout;
use nest::nest::Nest;
use samples::{FLOATS, INTEGERS, Sample};
use sequential::run::sequential;
use sheet::reader::read_sheet;
use std::{env, fs, io};

fn print_values<T: Sample>(rt: &HostRuntime, name: &str, values: &[T]) -> io::Result<()> {
    print!(rt; "  {name}")?;
    for value in values {
        value.print(rt)?;
    }
    println!(rt; "")
}

fn run_on<T: Sample>(rt: &HostRuntime, nest: &Nest, coefficients: &[T]) -> anyhow::Result<()> {
    let total = Layout::new(nest).total();
    let mut values = T::elements(rt.alloc(), total)?;
    let mut held = vec![in rt.alloc(); T::default(); total]?;
    let refused = sequential(nest, coefficients, &mut values, &mut held).is_err();
    let name = T::NAME;
    println!(rt; "  {name} refused={refused}")?;
    print_values(rt, "arrays", &values)?;
    print_values(rt, "held", &held)?;
    Ok(())
}

// Buffers that are one element short, and seven coefficients, are refused and stay as they were.
fn run_refused(rt: &HostRuntime, nest: &Nest) -> anyhow::Result<()> {
    let total = Layout::new(nest).total();
    let mut short = i32::elements(rt.alloc(), total.saturating_sub(1))?;
    let mut whole = i32::elements(rt.alloc(), total)?;
    let mut other = i32::elements(rt.alloc(), total)?;
    let short_arrays = sequential(nest, &INTEGERS, &mut short, &mut whole).is_err();
    let short_held = sequential(nest, &INTEGERS, &mut whole, &mut short).is_err();
    let seven = sequential(nest, &INTEGERS[..7], &mut whole, &mut other).is_err();
    println!(rt; "  refused {short_arrays} {short_held} {seven}")?;
    print_values(rt, "untouched", &whole)?;
    Ok(())
}

fn run_dealt(rt: &HostRuntime, nest: &Nest) -> anyhow::Result<()> {
    let values = i32::elements(rt.alloc(), Layout::new(nest).total())?;
    let deal = Deal::new(rt, nest)?;
    let (parts, back) = deal.scattered(rt, &values)?;
    let (by_maps, by_length) = deal.refusals(rt, &values)?;
    let by_maps = by_maps.map_or(0, |refusal| refusal.number());
    let by_length = by_length.map_or(0, |refusal| refusal.number());
    println!(rt; "  gathered back={back} refusals {by_maps} {by_length}")?;
    print_values(rt, "sections", &parts)?;
    Ok(())
}

fn run(rt: &HostRuntime) -> anyhow::Result<()> {
    for name in env::args(rt)?.skip(1) {
        let bytes = fs::read(rt, name.as_str())?;
        println!(rt; "{name}")?;
        if let Ok(nest) = read_sheet(rt.alloc(), &bytes) {
            run_on(rt, &nest, &INTEGERS)?;
            run_on(rt, &nest, &FLOATS)?;
            run_refused(rt, &nest)?;
            run_dealt(rt, &nest)?;
        }
    }
    Ok(())
}

fn main(rt: HostRuntime) -> anyhow::Result<()> {
    run(&rt)
}
