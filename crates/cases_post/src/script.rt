//! The cases, read from the words of their lines.
use crate::numerals::Numeral;
use post::calls::Call;
use post::pair::Pair;
use std::alloc::{AllocError, Global};
use std::io;
use std::str::{FromStr, SplitWhitespace};

/// The most calls of one case.
const MOST_CALLS: usize = 48;

/// Why a case is not run to its end.
#[derive(Debug, Drop)]
pub(crate) enum CaseFault {
    NotACase,
    Io(io::Error),
}

impl From<io::Error> for CaseFault {
    fn from(error: io::Error) -> CaseFault {
        CaseFault::Io(error)
    }
}

impl From<AllocError> for CaseFault {
    fn from(error: AllocError) -> CaseFault {
        CaseFault::Io(io::Error::from(error))
    }
}

/// Calls on posts that are made from buffers of `size` letters for `boards` boards.
#[derive(Drop)]
pub(crate) struct CallCase<T> {
    pub(crate) boards: usize,
    pub(crate) size: usize,
    pub(crate) calls: Vec<Call<T>>,
}

/// An element that is passed over posts of one board, made from buffers of `size` letters, and its term.
#[derive(Clone, Copy)]
pub(crate) struct TermCase<T> {
    pub(crate) size: usize,
    pub(crate) element: T,
    pub(crate) coefficient: T,
    pub(crate) value: T,
}

/// Reads one word as a value.
fn read<T: FromStr>(words: &mut SplitWhitespace<'_>) -> Result<T, CaseFault>
where
    T::Err: Drop,
{
    words
        .next()
        .and_then(|word| word.parse::<T>().ok())
        .ok_or(CaseFault::NotACase)
}

fn read_pair(words: &mut SplitWhitespace<'_>) -> Result<Pair, CaseFault> {
    Ok(Pair {
        from: read(words)?,
        to: read(words)?,
    })
}

fn read_call<T: Numeral>(word: &str, words: &mut SplitWhitespace<'_>) -> Result<Call<T>, CaseFault>
where
    T::Err: Drop,
{
    let pair = read_pair(words)?;
    match word {
        "p" => Ok(Call::Put {
            pair,
            letter: read(words)?,
        }),
        "t" => Ok(Call::Take { pair }),
        _ => Err(CaseFault::NotACase),
    }
}

/// Reads calls up to the end of the line, which is no case where a word is not of its form or there are too many.
fn read_calls<T: Numeral>(
    heap: Global,
    words: &mut SplitWhitespace<'_>,
) -> Result<Vec<Call<T>>, CaseFault>
where
    T::Err: Drop,
{
    let mut calls = Vec::new(heap);
    for _ in 0..MOST_CALLS {
        let Some(word) = words.next() else {
            return Ok(calls);
        };
        calls
            .push(read_call(word, words)?)
            .map_err(AllocError::from)?;
    }
    Err(CaseFault::NotACase)
}

pub(crate) fn read_call_case<T: Numeral>(
    heap: Global,
    words: &mut SplitWhitespace<'_>,
) -> Result<CallCase<T>, CaseFault>
where
    T::Err: Drop,
{
    Ok(CallCase {
        boards: read(words)?,
        size: read(words)?,
        calls: read_calls(heap, words)?,
    })
}

pub(crate) fn read_term_case<T: Numeral>(
    words: &mut SplitWhitespace<'_>,
) -> Result<TermCase<T>, CaseFault>
where
    T::Err: Drop,
{
    Ok(TermCase {
        size: read(words)?,
        element: read(words)?,
        coefficient: read(words)?,
        value: read(words)?,
    })
}
