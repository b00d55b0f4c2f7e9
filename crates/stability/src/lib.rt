// The stability test of a table.
#![tactic(auto)]

ghost use Rattle.std.specs.Prelude.{◌≡◌, not, true, false, ℕ, ◌+◌, ◌-◌, ◌≤◌, ◌<◌, length, get_or, take, ltb, MatchResult};
ghost use Rattle.meaning.specs.Numbers.{In, ◌&◌};
ghost use Rattle.meaning.specs.Lists.{place};
ghost use Rattle.meaning.specs.Market.{mutual?};
ghost use Rattle.meaning.specs.Endings.{table_of};
ghost use Rattle.meaning.specs.Stability.{first_stranger, first_over, blocking_from, over_or, test_by};
ghost use Rattle.tables.specs.Decode.{placement_of};
ghost use Rattle.tables.specs.Answers.{Same};
ghost use Rattle.ranks.specs.View.{n_of, m_of, wishes_of, ranking_of, posts_of, market_of, FullTables};
ghost use Rattle.stability.specs.Test.{long_enough, read_depots, read_with, test_of};
ghost use Rattle.stability.specs.Keeps.{KeepsUnlessRefused};
ghost use Rattle.stability.specs.Search.{found_of, rank_in, Counts, Worsts, places_above, takes_at, TestTables, PairTables, SearchTables};

use meaning::{Fault, Refusal, Tested};
use ranks::Market;
use tables::{Held, Lent};

// Full tables, and a table with a cell for each of their trainees.
#[derive(Clone, Copy)]
pub struct Trial<'a> {
    pub market: Market<'a>,
    pub table: &'a [u16],
    pub ghost known: { TestTables market.heads.now market.entries.now table.now },
}

impl<'a> Trial<'a> {
    // The first trainee whose depot isn't mutual.
    fn first_stranger(&self) -> Option<u16>
        ensures { found_of result ≡ first_stranger (market_of self.now.market.heads.now self.now.market.entries.now) (table_of self.now.table.now) }
    {
        for (k, j) in self.table.iter().enumerate() {
            if is_stranger(&self.market, k + 1, usize::from(*j)) {
                return Some(k as u16 + 1);
            }
        }
        None
    }

    // The smallest depot over its posts.
    pub fn first_over(&self, counts: &[u16; 65]) -> Option<u16>
        requires { Counts (table_of self.now.table.now) (n_of self.now.market.heads.now) counts.now }
        ensures { found_of result ≡ first_over (market_of self.now.market.heads.now self.now.market.entries.now) (table_of self.now.table.now) }
    {
        for j in 1..self.market.depots() + 1 {
            if self.market.posts(j) < usize::from(counts[j]) {
                return Some(j as u16);
            }
        }
        None
    }

    // The worst rank among each depot's trainees, so that no pair looks for it again; 0, below every rank, where there is none: it compares as it is, and an Option
    // would be no plainer.
    fn worsts(&self) -> [u16; 65]
        requires { PairTables self.now.market.heads.now self.now.market.entries.now self.now.table.now }
        ensures { Worsts (market_of self.now.market.heads.now self.now.market.entries.now) (table_of self.now.table.now) (n_of self.now.market.heads.now) result }
    {
        let mut worsts = [0; 65];
        for (k, own) in self.table.iter().enumerate() {
            let j = usize::from(*own);
            if let Some(rank) = rank_at(&self.market, j, k + 1) {
                worsts[j] = worsts[j].max(rank);
            }
        }
        worsts
    }

    // The answer for a table of mutual pairs.
    fn tested_pairs(&self) -> Tested
        requires { PairTables self.now.market.heads.now self.now.market.entries.now self.now.table.now }
        ensures { result ≡ over_or (first_over (market_of self.now.market.heads.now self.now.market.entries.now) (table_of self.now.table.now))
            (blocking_from (market_of self.now.market.heads.now self.now.market.entries.now) (wishes_of self.now.market.heads.now self.now.market.entries.now) (table_of self.now.table.now) (n_of self.now.market.heads.now) 1) }
    {
        let counts = counts_of(self.table);
        match self.first_over(&counts) {
            Some(j) => Tested::OverPosts(j),
            None => {
                let worsts = self.worsts();
                let search = Search {
                    market: self.market,
                    table: self.table,
                    counts: &counts,
                    worsts: &worsts,
                };
                search.first_blocking()
            }
        }
    }

    // The answer for the table.
    pub fn tested(&self) -> Tested
        ensures { result ≡ test_by (market_of self.now.market.heads.now self.now.market.entries.now) (wishes_of self.now.market.heads.now self.now.market.entries.now) (table_of self.now.table.now) }
    {
        match self.first_stranger() {
            Some(i) => Tested::NotMutual(i),
            None => self.tested_pairs(),
        }
    }
}

// A table of mutual pairs, with how many trainees each depot has and the worst rank among them. These stay two arrays: first_over, the solver and the checker need the counts alone, before there are ranks.
#[derive(Clone, Copy)]
struct Search<'a> {
    market: Market<'a>,
    table: &'a [u16],
    counts: &'a [u16; 65],
    worsts: &'a [u16; 65],
    ghost known: { SearchTables market.heads.now market.entries.now table.now counts.now worsts.now },
}

impl<'a> Search<'a> {
    // Whether depot j ranks trainee i and would take them: it has room, or one whom it ranks below.
    fn takes(&self, i: usize, j: usize) -> bool
        requires { In (m_of self.now.market.heads.now) j }
        ensures { result ≡ takes_at (place (ranking_of self.now.market.heads.now self.now.market.entries.now j) i) (posts_of self.now.market.heads.now j) (get_or self.now.counts.now j 0) (get_or self.now.worsts.now j 0) }
    {
        match rank_at(&self.market, j, i) {
            None => false,
            Some(rank) => {
                let room = usize::from(self.counts[j]) < self.market.posts(j);
                room || rank < self.worsts[j]
            }
        }
    }

    // The blocking pair of the smallest trainee, highest on that list: the search stops at the first found.
    fn first_blocking(&self) -> Tested
        ensures { result ≡ blocking_from (market_of self.now.market.heads.now self.now.market.entries.now) (wishes_of self.now.market.heads.now self.now.market.entries.now) (table_of self.now.table.now) (n_of self.now.market.heads.now) 1 }
    {
        let mut found = Tested::Stable;
        'search: for (k, x) in self.table.iter().enumerate() {
            for j in above_own(self.market.wishes(k + 1), usize::from(*x)) {
                if self.takes(k + 1, usize::from(*j)) {
                    found = Tested::Blocking(k as u16 + 1, *j);
                    break 'search;
                }
            }
        }
        found
    }
}

// Whether trainee i has a depot j that isn't mutual, 0 for none, as the cell of a table has it.
fn is_stranger(market: &Market, i: usize, j: usize) -> bool
    requires { In (n_of market.now.heads.now) i }
    ensures { result ≡ (ltb 0 j & not (mutual? (market_of market.now.heads.now market.now.entries.now) i j)) }
{
    j != 0 && !market.is_mutual(i, j)
}

// How many trainees a table gives each depot, so that no pair counts them again.
pub fn counts_of(table: &[u16]) -> [u16; 65]
    requires { (length table.now ≤ 256) × ((i : ℕ) → In (length table.now) i → table_of table.now i ≤ 64) }
    ensures { Counts (table_of table.now) (length table.now) result }
{
    let mut counts = [0; 65];
    for j in table {
        counts[usize::from(*j)] += 1;
    }
    counts
}

// The place of trainee i on depot j's list, counted from 1, if there is such a depot and it ranks them.
fn rank_at(market: &Market, j: usize, i: usize) -> Option<u16>
    requires { j ≤ m_of market.now.heads.now }
    ensures { result ≡ rank_in (place (ranking_of market.now.heads.now market.now.entries.now j) i) }
{
    if j == 0 {
        return None;
    }
    let p = ranks::place_on(market.ranking(j), i)?;
    Some(p as u16 + 1)
}

// The part of a trainee's list above their own depot x, all of it where they have none: only there do they gain.
fn above_own(wishes: &[u16], x: usize) -> &[u16]
    requires { (x ≡ 0 → place wishes.now x ≡ 0) × (0 < x → 0 < place wishes.now x) }
    ensures { result.now ≡ take (places_above wishes.now x) wishes.now }
{
    match ranks::place_on(wishes, x) {
        Some(p) => &wishes[..p],
        None => wishes,
    }
}

// The lent tables, or number 1 where a lent part is shorter than the full size of its table.
fn long_enough<'a>(
    heads: &'a [u16],
    entries: &'a [u16],
    orders: &'a [u16],
    table: &[u16],
) -> Result<Lent<'a>, Fault>
    ensures { MatchResult result (λ t. Same t.heads.now t.entries.now t.orders.now heads.now entries.now orders.now × (long_enough heads.now entries.now orders.now table.now ≡ true))
        (λ f. (f ≡ Fault.ShortPart) × (long_enough heads.now entries.now orders.now table.now ≡ false)) }
{
    let lent = Lent::new(heads, entries, orders)?;
    if table.len() < 256 {
        return Err(Fault::ShortPart);
    }
    Ok(lent)
}

// Whether each cell is 0 or a depot that can have been read.
fn depots_ok(cells: &[u16]) -> bool
    ensures { result ≡ read_depots cells.now }
{
    cells.iter().all(|j| *j <= 64)
}

// The tables, or number 8 where no reader could have filled the used cells of all, the table's being those of n trainees.
fn read_ok<'a>(lent: Lent<'a>, n: u16, table: &[u16]) -> Result<Held<'a>, Fault>
    requires { 256 ≤ length table.now }
    ensures { MatchResult result (λ t. Same t.heads.now t.entries.now t.orders.now lent.entry.heads.now lent.entry.entries.now lent.entry.orders.now
        × (read_with (placement_of lent.entry.heads.now lent.entry.entries.now lent.entry.orders.now) n table.now ≡ true))
        (λ f. (f ≡ Fault.NotRead) × (read_with (placement_of lent.entry.heads.now lent.entry.entries.now lent.entry.orders.now) n table.now ≡ false)) }
{
    let held = Held::new(lent)?;
    let end = usize::from(n);
    if held.trainees() == end && depots_ok(&table[..end]) {
        Ok(held)
    } else {
        Err(Fault::NotRead)
    }
}

// The stability test of a table of n trainees: the first trainee whose depot isn't mutual, else the smallest depot over its posts, else the first blocking pair, else stable.
pub fn test_table<'a>(
    heads: &'a [u16],
    entries: &'a [u16],
    orders: &[u16],
    n: u16,
    table: &'a [u16],
) -> Result<Tested, Refusal>
    ensures answer { result ≡ test_of heads.now entries.now orders.now n table.now }
    ensures truth { KeepsUnlessRefused heads.now entries.now orders.now n table.now result }
{
    let lent = long_enough(heads, entries, orders, table)?;
    let held = read_ok(lent, n, table)?;
    if let Some(line) = held.missing_line() {
        return Err(Refusal {
            fault: Fault::NotReceived,
            line,
        });
    }
    let end = usize::from(n);
    let trial = Trial {
        market: Market { heads, entries },
        table: &table[..end],
    };
    Ok(trial.tested())
}
