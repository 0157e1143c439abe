//! Running one case and printing what the posts answer.
use crate::numerals::Numeral;
use crate::script::{CaseFault, TermCase, read_call_case, read_term_case};
use belt::{Belt, Slot};
use lanes::Lanes;
use post::answers::{PostRefusal, Posted};
use post::calls::{Reply, serve_both};
use post::pair::Pair;
use post::service::Post;
use post::terms::pass_term;
use std::io;
use std::str::SplitWhitespace;

/// Runs the case on a line, or says that the line is none.
pub(crate) fn run_line(rt: &HostRuntime, line: &str) -> io::Result<()> {
    match run_case(rt, &mut line.split_whitespace()) {
        Ok(()) => Ok(()),
        Err(CaseFault::NotACase) => println!(rt; "  not a case"),
        Err(CaseFault::Io(error)) => Err(error),
    }
}

fn run_case(rt: &HostRuntime, words: &mut SplitWhitespace<'_>) -> Result<(), CaseFault> {
    match words.next() {
        None | Some("#") => Ok(()),
        Some("i32") => run_calls::<i32>(rt, words),
        Some("f64") => run_calls::<f64>(rt, words),
        Some("term") => match words.next() {
            Some("i32") => run_term::<i32>(rt, words),
            Some("f64") => run_term::<f64>(rt, words),
            _ => Err(CaseFault::NotACase),
        },
        Some(_) => Err(CaseFault::NotACase),
    }
}

/// What fills the slots of a belt before it is made.
fn blank_slot<T: Numeral>() -> Slot<T> {
    Slot {
        pair: Pair { from: 0, to: 0 },
        letter: T::FILL,
    }
}

/// Makes the calls of a case on lanes and on a belt.
fn run_calls<T: Numeral>(rt: &HostRuntime, words: &mut SplitWhitespace<'_>) -> Result<(), CaseFault>
where
    T::Err: Drop,
{
    let case = read_call_case::<T>(rt.alloc(), words)?;
    let mut letters = vec![in rt.alloc(); T::FILL; case.size]?;
    let mut slots = vec![in rt.alloc(); blank_slot::<T>(); case.size]?;
    let mut lanes = Lanes::new(&mut letters, case.boards);
    let mut belt = Belt::new(&mut slots, case.boards);
    let mut on_lanes = vec![in rt.alloc(); Ok(Reply::Taken(None)); case.calls.len()]?;
    let mut on_belt = vec![in rt.alloc(); Ok(Reply::Taken(None)); case.calls.len()]?;
    serve_both(
        &mut lanes,
        &mut belt,
        &case.calls,
        &mut on_lanes,
        &mut on_belt,
    );
    show_post(rt, "lanes", &lanes, &on_lanes)?;
    show_post(rt, "belt", &belt, &on_belt)?;
    Ok(())
}

/// Prints the board count, the depth, the replies, and the number waiting for each pair, with one board too many.
fn show_post<T: Numeral, P: Post<Letter = T>>(
    rt: &HostRuntime,
    name: &str,
    post: &P,
    replies: &[Result<Reply<T>, PostRefusal>],
) -> io::Result<()> {
    let boards = post.boards();
    let depth = post.depth();
    print!(rt; "  {name} boards {boards} depth {depth}:")?;
    for reply in replies {
        show_reply(rt, *reply)?;
    }
    print!(rt; "; waiting")?;
    for from in 0..=boards {
        print!(rt; " |")?;
        for to in 0..=boards {
            match post.waiting(Pair { from, to }) {
                Ok(count) => print!(rt; " {count}")?,
                Err(PostRefusal::NoSuchBoard) => print!(rt; " 14")?,
            }
        }
    }
    println!(rt; "")
}

fn show_reply<T: Numeral>(
    rt: &HostRuntime,
    reply: Result<Reply<T>, PostRefusal>,
) -> io::Result<()> {
    match reply {
        Ok(Reply::Put(Posted::Joined)) => print!(rt; " joined"),
        Ok(Reply::Put(Posted::Full)) => print!(rt; " full"),
        Ok(Reply::Taken(Some(value))) => print!(rt; " {value}"),
        Ok(Reply::Taken(None)) => print!(rt; " none"),
        Err(PostRefusal::NoSuchBoard) => print!(rt; " refused-14"),
    }
}

/// Adds a term by way of lanes and by way of a belt, each of one board.
fn run_term<T: Numeral>(rt: &HostRuntime, words: &mut SplitWhitespace<'_>) -> Result<(), CaseFault>
where
    T::Err: Drop,
{
    let TermCase {
        size,
        element,
        coefficient,
        value,
    } = read_term_case::<T>(words)?;
    let mut letters = vec![in rt.alloc(); T::FILL; size]?;
    let mut slots = vec![in rt.alloc(); blank_slot::<T>(); size]?;
    let own = Pair { from: 0, to: 0 };
    let mut lanes = Lanes::new(&mut letters, 1);
    let mut belt = Belt::new(&mut slots, 1);
    let on_lanes = pass_term(&mut lanes, own, element, coefficient, value);
    let on_belt = pass_term(&mut belt, own, element, coefficient, value);
    print!(rt; "  lanes")?;
    show_reply(rt, on_lanes.map(Reply::Taken))?;
    print!(rt; ", belt")?;
    show_reply(rt, on_belt.map(Reply::Taken))?;
    println!(rt; "")?;
    Ok(())
}
