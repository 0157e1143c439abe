// Asks every map of every make, for 1 to 8 boards and 1 to 32 positions, and prints sums of the answers.
#![tactic(auto)]

use owner_map::{Make, OwnerMap, Refusal, deal_out};
use std::fmt;

/// Sums of answers, each weighted so that a swapped answer shows.
#[derive(Clone, Copy, Default)]
struct Sums {
    places: u64,
    positions: u64,
    counts: u64,
    refused: u64,
}

impl fmt::Display for Sums {
    fn fmt<W: fmt::Write>(&self, f: &mut fmt::Formatter<W>) -> fmt::Result {
        let Sums {
            places,
            positions,
            counts,
            refused,
        } = self;
        write!(f, "{places} {positions} {counts} {refused}")
    }
}

fn mixed(sum: u64, a: usize, b: usize) -> u64 {
    sum.wrapping_mul(31)
        .wrapping_add(a.wrapping_mul(7).wrapping_add(b) as u64)
        & 0xffff_ffff
}

/// Mixes an answer into the sum of its question, or counts it among the refused.
fn take_in(sum: &mut u64, refused: &mut u64, answer: Result<(usize, usize), Refusal>) {
    match answer {
        Ok((a, b)) => *sum = mixed(*sum, a, b),
        Err(_) => *refused = refused.wrapping_add(1),
    }
}

fn ask_all<M: OwnerMap>(map: &M, sums: &mut Sums) {
    for x in 0..34 {
        take_in(&mut sums.places, &mut sums.refused, map.place(x));
    }
    for board in 0..9 {
        for rank in 0..33 {
            let found = map.position(board, rank);
            let answer = found.map(|found| found.map_or((0, 2), |x| (x, 1)));
            take_in(&mut sums.positions, &mut sums.refused, answer);
        }
        for bound in 0..35 {
            let answer = map.count_below(board, bound).map(|count| (count, 0));
            take_in(&mut sums.counts, &mut sums.refused, answer);
        }
    }
}

fn sums_of(make: Make, boards: usize) -> Sums {
    let mut sums = Sums::default();
    for length in 0..34 {
        match deal_out(make, boards, length) {
            Ok(map) => ask_all(&map, &mut sums),
            Err(_) => sums.refused = sums.refused.wrapping_add(1),
        }
    }
    sums
}

fn main(rt: HostRuntime) -> anyhow::Result<()> {
    let makes = [
        ("one", Make::One),
        ("block", Make::Block),
        ("cyclic", Make::Cyclic),
        ("cyclic:0", Make::CyclicBy(0)),
        ("cyclic:1", Make::CyclicBy(1)),
        ("cyclic:2", Make::CyclicBy(2)),
        ("cyclic:3", Make::CyclicBy(3)),
        ("cyclic:5", Make::CyclicBy(5)),
        ("cyclic:32", Make::CyclicBy(32)),
        ("cyclic:33", Make::CyclicBy(33)),
    ];
    for (name, make) in makes {
        for boards in 0..10 {
            let sums = sums_of(make, boards);
            println!(rt; "{name} {boards}: {sums}")?;
        }
    }
    Ok(())
}
