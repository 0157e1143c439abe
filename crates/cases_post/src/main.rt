//! Runs a table of cases over both makes of post and both number kinds.
//! Each line of standard input is one case; it is printed, with what the posts answer below it.
//!
//! - `# TEXT`: a heading
//! - `KIND BOARDS LETTERS CALL ..`: calls on posts that are made from buffers of so many letters for so many boards.
//!   A call is `p FROM TO LETTER` (put) or `t FROM TO` (take).
//! - `term KIND LETTERS ELEMENT COEFFICIENT VALUE`: an element passed from board 0 to itself, and its term added to the
//!   value
//!
//! KIND is `i32` or `f64`.
#![tactic(auto)]

mod numerals;
mod script;
mod table;

use std::io;
use table::run_line;

fn main(rt: HostRuntime) -> io::Result<()> {
    for line in rt.lines(rt.alloc()) {
        let line = line?;
        println!(rt; "{line}")?;
        run_line(&rt, line.as_str())?;
    }
    Ok(())
}
