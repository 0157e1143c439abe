//! The theorems on networks, each on the contract of a function for every type of letter `L` and of a board's own state `S`.
//! What a function answers is the test by which a caller uses its theorem.
// Kept: one function for each theorem, also where two make the same test: what they promise differs.
ghost use Rattle.std.specs.Prelude.{◌≡◌, ◌↔◌, ◌≤◌, IsTrue, IsFalse};
ghost use Rattle.network.specs.Laws.{WaitsOnlyForRows, OrdersCommute, EveryListCompletes, DeeperRowsSameEnd, QuietRoundIsEnd};

/// Whether a put into a row of so many letters has to wait: the row is full.
#[tactic(auto, using(crate::proofs::Telling::waits_only_for_rows))]
pub fn waits_only_for_rows<L, S>(letters: usize, depth: usize) -> bool
    ensures answer { IsTrue result ↔ (depth ≤ letters) }
    ensures law { WaitsOnlyForRows L S }
{
    depth <= letters
}

/// Whether requests to `p` and `q` can change places wherever both boards would run: they are two boards.
#[tactic(auto, using(crate::proofs::Theorems::orders_commute))]
pub fn orders_commute<L, S>(p: usize, q: usize) -> bool
    ensures answer { IsFalse result ↔ (p ≡ q) }
    ensures law { OrdersCommute L S }
{
    p != q
}

/// Whether every board has ended, by counting: as many steps have run as a complete list has requests.
pub fn every_list_completes<L, S>(list_length: usize, steps_run: usize) -> bool
    ensures answer { IsTrue result ↔ (steps_run ≡ list_length) }
    ensures law { EveryListCompletes L S }
{
    steps_run == list_length
}

/// Whether a complete list at `depth` is one at another depth too, with the same last state: that is at least as deep.
pub fn deeper_rows_same_end<L, S>(depth: usize, other: usize) -> bool
    ensures answer { IsTrue result ↔ (depth ≤ other) }
    ensures law { DeeperRowsSameEnd L S }
{
    depth <= other
}

/// Whether a round that names every board shows that every board has ended: it ran no step.
#[tactic(auto, using(crate::proofs::Theorems::quiet_round_is_end))]
pub fn quiet_round_is_end<L, S>(steps_run: usize) -> bool
    ensures answer { IsTrue result ↔ (steps_run ≡ 0) }
    ensures law { QuietRoundIsEnd L S }
{
    steps_run == 0
}
