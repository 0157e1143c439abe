// Prints the parts of a nest as a sheet writes them.
use nest::terms::{Access, Array, Range, Statement, Subscript};
use std::io;

pub(crate) fn print_array(rt: &HostRuntime, array: Array) -> io::Result<()> {
    let Array {
        rows,
        columns,
        row_map,
        column_map,
    } = array;
    print!(rt; " array={rows},{columns},{row_map},{column_map}")
}

// The target goes by i and j, so a sheet leaves its variables out.
fn print_target(rt: &HostRuntime, access: Access) -> io::Result<()> {
    let array = access.array.saturating_add(1);
    print!(rt; " put={array}")?;
    for s in [access.row, access.column] {
        let Subscript { factor, offset, .. } = s;
        print!(rt; ",{factor},{offset}")?;
    }
    Ok(())
}

fn print_source(rt: &HostRuntime, access: Access) -> io::Result<()> {
    let array = access.array.saturating_add(1);
    print!(rt; "{array}")?;
    for s in [access.row, access.column] {
        let Subscript {
            variable,
            factor,
            offset,
        } = s;
        print!(rt; ",{variable},{factor},{offset}")?;
    }
    Ok(())
}

fn print_range(rt: &HostRuntime, range: Range) -> io::Result<()> {
    let Range { low, high } = range;
    print!(rt; ",{low},{high}")
}

pub(crate) fn print_statement(rt: &HostRuntime, s: &Statement) -> io::Result<()> {
    let (mode, base) = (s.mode, s.base);
    print!(rt; " stmt={mode}")?;
    print_range(rt, s.i)?;
    print_range(rt, s.j)?;
    print_target(rt, s.put)?;
    print!(rt; " base={base}")?;
    for r in &s.reads {
        let coefficient = r.coefficient;
        print!(rt; " read={coefficient},")?;
        print_source(rt, r.source)?;
    }
    Ok(())
}
