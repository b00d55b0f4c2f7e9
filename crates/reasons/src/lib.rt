// Which reason fits a pair now, read off the tables and the rows of struck places.
#![tactic(auto)]

ghost use Rattle.std.specs.Prelude.{◌≡◌, true, false, not, ℕ, ◌+◌, ◌-◌, ◌≤◌, ◌<◌, length, get_or, leb, ltb, eqb};
ghost use Rattle.std.proofs.Math.Option.{none};
ghost use Rattle.meaning.specs.Numbers.{In};
ghost use Rattle.meaning.specs.Lists.{place};
ghost use Rattle.meaning.specs.Solver.{lowest};
ghost use Rattle.ranks.specs.View.{n_of, m_of, ranking_of, posts_of, wishes_of, Names};
ghost use Rattle.reasons.specs.Rows.{OrderRows, start_row};
ghost use Rattle.reasons.specs.Orders.{FullOrders, Noted, mark_for, trainee_in, depot_in};
ghost use Rattle.tables.specs.Cells.{order_start};
ghost use Rattle.reasons.specs.Scans.{count_in, least_in, smaller_of};
ghost use Rattle.reasons.specs.Reasons.{settled, settled_by, above_of, number_or, choice_in};
ghost use Rattle.reasons.specs.Answers.{choice_of, far_number};
ghost use Rattle.reasons.specs.Left.{open_at, left_cell, LaidTo};

use meaning::Reason;
use ranks::Market;
use tables::Kind;

// How far everything on a trainee's list is struck, seen from a depot: not up to it, above it, or down to it.
#[derive(Clone, Copy, PartialEq, Eq, PartialOrd, Ord)]
pub enum Far {
    Short,
    Above,
    Down,
}

// What a pass along a part of a depot's list finds: how many have everything above the depot struck, and the smallest who has everything down to it struck.
#[derive(Clone, Copy)]
pub struct Tally {
    pub settled: usize,
    pub passed: Option<u16>,
}

// A market with its trainees' rows of struck places.
#[derive(Clone, Copy)]
pub struct Rows<'a> {
    pub market: Market<'a>,
    pub marks: &'a [u64],
    pub ghost long: { n_of market.heads.now < length marks.now },
}

// A market with the rows of its orders: the depots at which each trainee is held, and those from which they are barred.
#[derive(Clone, Copy)]
pub struct Standing<'a> {
    pub market: Market<'a>,
    pub holds: &'a [u64],
    pub bars: &'a [u64],
    pub ghost inside: { OrderRows market.heads.now holds.now bars.now },
}

// A market with the cells of its orders.
#[derive(Clone, Copy)]
pub struct Orders<'a> {
    pub market: Market<'a>,
    pub cells: &'a [u16],
    pub ghost full: { FullOrders market.heads.now cells.now },
    pub ghost few: { get_or cells.now 0 0 ≤ 65535 },
}

// How far everything is struck, by the place of the depot and the first place left.
fn how_far(p: usize, first: usize) -> Far
    requires { first ≤ 64 }
    ensures { far_number result ≡ settled_by (leb (p + 1) (first + 1)) (leb (p + 1) (first + 0)) }
{
    if p < first {
        return Far::Down;
    }
    if p <= first {
        return Far::Above;
    }
    Far::Short
}

// The smaller of k, if it passed, and what was found so far.
fn smaller_if(passes: bool, k: u16, found: Option<u16>) -> Option<u16>
    ensures { result ≡ smaller_of passes k found }
{
    if passes {
        return Some(found.map_or(k, |w| k.min(w)));
    }
    found
}

impl<'a> Rows<'a> {
    // How far everything is struck for trainee k and depot j; not up to it where k doesn't rank it.
    pub fn settled_with(&self, j: usize, k: usize) -> Far
        requires { In (n_of self.now.market.heads.now) k }
        ensures { far_number result ≡ settled_by (settled self.now.market.heads.now self.now.market.entries.now self.now.marks.now 1 j k) (settled self.now.market.heads.now self.now.market.entries.now self.now.marks.now 0 j k) }
    {
        match ranks::place_on(self.market.wishes(k), j) {
            Some(p) => how_far(p, rows::first_left(self.marks[k])),
            None => Far::Short,
        }
    }

    // A pass along a part of depot j's list: each trainee's list is searched once, for reasons 3 and 4 together.
    pub fn pass_along(&self, part: &[u16], j: usize) -> Tally
        requires { Names (n_of self.now.market.heads.now) part.now × (length part.now ≤ 65535) }
        ensures { (result.settled ≡ count_in (settled self.now.market.heads.now self.now.market.entries.now self.now.marks.now 1 j) part.now)
            × (choice_of result.passed ≡ number_or (least_in (settled self.now.market.heads.now self.now.market.entries.now self.now.marks.now 0 j) part.now 0)) }
    {
        let mut settled = 0;
        let mut passed = None;
        for k in part {
            let far = self.settled_with(j, usize::from(*k));
            settled += usize::from(Far::Above <= far);
            passed = smaller_if(Far::Down <= far, *k, passed);
        }
        Tally { settled, passed }
    }

    // Whether (i, j) is mutual and not struck so far: one mark says both.
    pub fn is_open(&self, i: usize, j: usize) -> bool
        requires { In (n_of self.now.market.heads.now) i }
        ensures { result ≡ open_at self.now.market.heads.now self.now.market.entries.now self.now.marks.now i j }
    {
        match ranks::place_on(self.market.wishes(i), j) {
            Some(p) => !rows::marked(self.marks[i], p),
            None => false,
        }
    }

    // The depot at the first place left of trainee i's list, 0 where none is left, as the cell of a table has it.
    pub fn left_cell(&self, i: usize) -> u16
        requires { In (n_of self.now.market.heads.now) i }
        ensures { result ≡ left_cell self.now.market.heads.now self.now.market.entries.now self.now.marks.now i }
    {
        let p = rows::first_left(self.marks[i]);
        self.market.wishes(i).get(p).copied().unwrap_or(0)
    }

    // Lays the left table over the front of a table.
    pub fn lay_left(&self, table: &mut [u16])
        requires { n_of self.now.market.heads.now ≤ length table.old }
        ensures { LaidTo self.now.market.heads.now self.now.market.entries.now self.now.marks.now table.old (n_of self.now.market.heads.now) table.new }
    {
        for k in 0..self.market.trainees() {
            table[k] = self.left_cell(k + 1);
        }
    }

    // Reasons 3 and 4: the part of j's list above i is walked once.
    fn crowded(&self, i: usize, j: usize) -> Option<Reason>
        requires { In (m_of self.now.market.heads.now) j × (0 < place (ranking_of self.now.market.heads.now self.now.market.entries.now j) i) }
        ensures { choice_of result ≡ lowest false none
            (leb (posts_of self.now.market.heads.now j) (count_in (settled self.now.market.heads.now self.now.market.entries.now self.now.marks.now 1 j) (above_of self.now.market.heads.now self.now.market.entries.now i j)))
            (number_or (least_in (settled self.now.market.heads.now self.now.market.entries.now self.now.marks.now 0 j) (above_of self.now.market.heads.now self.now.market.entries.now i j) 0)) }
    {
        let ranking = self.market.ranking(j);
        let end = ranks::place_on(ranking, i).unwrap();
        let t = self.pass_along(&ranking[..end], j);
        if self.market.posts(j) <= t.settled {
            return Some(Reason::PostsGone);
        }
        t.passed.map(|k| Reason::Passed(k))
    }
}

impl<'a> Standing<'a> {
    // The lowest reason for which the pair may be struck now, with its smallest witness.
    pub fn choose(&self, rows: &[u64], i: usize, j: usize) -> Option<Reason>
        requires { In (n_of self.now.market.heads.now) i × In (m_of self.now.market.heads.now) j
            × (0 < place (ranking_of self.now.market.heads.now self.now.market.entries.now j) i) × (n_of self.now.market.heads.now < length rows.now) }
        ensures { choice_of result ≡ choice_in self.now.market.heads.now self.now.market.entries.now self.now.holds.now self.now.bars.now rows.now i j }
    {
        let place = j - 1;
        if rows::marked(self.bars[i], place) {
            return Some(Reason::Barred);
        }
        let free = rows::with_mark(rows::turn(self.holds[i]), place);
        let at = rows::first_left(free);
        if at < 64 {
            return Some(Reason::HeldElsewhere((at + 1) as u16));
        }
        Rows {
            market: self.market,
            marks: rows,
        }
        .crowded(i, j)
    }
}

// Whether depot j doesn't rank trainee i.
fn is_stranger(market: &Market, j: usize, i: usize) -> bool
    requires { In (m_of market.now.heads.now) j }
    ensures { result ≡ not (ltb 0 (place (ranking_of market.now.heads.now market.now.entries.now j) i)) }
{
    ranks::place_on(market.ranking(j), i).is_none()
}

// The row of trainee i before the first strike: what is past the list's end or not mutual is marked from the start.
fn start_row(market: &Market, i: usize) -> u64
    requires { In (n_of market.now.heads.now) i }
    ensures { result ≡ start_row market.now.heads.now market.now.entries.now i }
{
    let wishes = market.wishes(i);
    let mut row = rows::past_end(wishes.len());
    for (p, j) in wishes.iter().enumerate() {
        row = rows::mark_if(row, p, is_stranger(market, usize::from(*j), i));
    }
    row
}

// The rows of all trainees before the first strike.
pub fn start_rows(market: &Market, rows: &mut [u64])
    requires { n_of market.now.heads.now < length rows.old }
    ensures { (k : ℕ) → In (n_of market.now.heads.now) k → get_or rows.new k 0 ≡ start_row market.now.heads.now market.now.entries.now k }
{
    for i in 1..market.trainees() + 1 {
        rows[i] = start_row(market, i);
    }
}

// Marks the pair (i, j) in the rows of one kind of orders.
fn mark_pair(rows: &mut [u64], i: usize, j: usize)
    requires { (1 ≤ j) × (j ≤ 64) × (i < length rows.old) }
    ensures { rows.new ≡ mark_for true rows.old i j }
{
    rows::mark(rows, i, j - 1);
}

impl<'a> Orders<'a> {
    // The number of orders.
    pub fn count(&self) -> usize
        ensures { result ≡ get_or self.now.cells.now 0 0 }
    {
        tables::orders_of(self.cells)
    }

    // Whether the order at k holds its pair; else it bars it.
    pub fn is_hold(&self, k: usize) -> bool
        requires { k < get_or self.now.cells.now 0 0 }
        ensures { result ≡ eqb (get_or self.now.cells.now (order_start k) 0) 0 }
    {
        tables::kind_at(self.cells, tables::order_at(k)) == Some(Kind::Held)
    }

    // The trainee of the order at k.
    pub fn trainee(&self, k: usize) -> usize
        requires { k < get_or self.now.cells.now 0 0 }
        ensures { result ≡ trainee_in self.now.cells.now k }
    {
        tables::order_trainee(self.cells, tables::order_at(k))
    }

    // The depot of the order at k.
    pub fn depot(&self, k: usize) -> usize
        requires { k < get_or self.now.cells.now 0 0 }
        ensures { result ≡ depot_in self.now.cells.now k }
    {
        tables::order_depot(self.cells, tables::order_at(k))
    }

    // Marks the pair of the order at k in the rows of its kind. The rows of both kinds stay two slices, since a struct of two &mut would promise more and say no more.
    fn note(&self, k: usize, holds: &mut [u64], bars: &mut [u64])
        requires { (k < get_or self.now.cells.now 0 0) × OrderRows self.now.market.heads.now holds.old bars.old }
        ensures { (holds.new ≡ mark_for (eqb (get_or self.now.cells.now (order_start k) 0) 0) holds.old (trainee_in self.now.cells.now k) (depot_in self.now.cells.now k))
            × (bars.new ≡ mark_for (not (eqb (get_or self.now.cells.now (order_start k) 0) 0)) bars.old (trainee_in self.now.cells.now k) (depot_in self.now.cells.now k)) }
    {
        let i = self.trainee(k);
        let j = self.depot(k);
        if self.is_hold(k) {
            mark_pair(holds, i, j);
        } else {
            mark_pair(bars, i, j);
        }
    }

    // Gathers, once, what is held and barred for each trainee.
    pub fn note_all(&self, holds: &mut [u64], bars: &mut [u64])
        requires { Noted self.now.market.heads.now self.now.cells.now 0 holds.old bars.old }
        ensures { Noted self.now.market.heads.now self.now.cells.now (get_or self.now.cells.now 0 0) holds.new bars.new }
    {
        for k in 0..self.count() {
            self.note(k, holds, bars);
        }
    }
}
