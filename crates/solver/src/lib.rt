// The solver: sweeps over rows and cells, until one strikes nothing.
#![tactic(auto)]

ghost use Rattle.std.specs.Prelude.{◌≡◌, [], suc, ◌+◌, ◌≤◌, ◌<◌, length, get_or};
ghost use Rattle.meaning.specs.Numbers.{In};
ghost use Rattle.meaning.specs.Strikes.{mutual_pairs};
ghost use Rattle.meaning.specs.Solver.{row_by, rows_by, sweeps_by};
ghost use Rattle.ranks.specs.View.{n_of, wishes_of, market_of};
ghost use Rattle.strikes.specs.Cells.{strikes_in};
ghost use Rattle.meaning.specs.Endings.{broken?, first_broken, left_table, room?, room_from};
ghost use Rattle.meaning.specs.Numbers.{smallest};
ghost use Rattle.ranks.specs.View.{m_of};
ghost use Rattle.reasons.specs.Orders.{order_in, orders_in};
ghost use Rattle.reasons.specs.Answers.{choice_of};
ghost use Rattle.tables.specs.Cells.{laid};
ghost use Rattle.std.proofs.Math.Option.{some};
ghost use Rattle.meaning.specs.Full.{Full, whole, full};
ghost use Rattle.meaning.specs.Placement.{Placement};
ghost use Rattle.meaning.specs.Solver.{WholeRuling, solve};
ghost use Rattle.tables.specs.Decode.{placement_of};
ghost use Rattle.solver.specs.Going.{visit_by};
ghost use Rattle.solver.specs.Sweeping.{Sweeping, SweptTo, record_of, reason_at};
ghost use Rattle.solver.specs.Solved.{AllStruck, ending_in, table_by, SolvedAs};
ghost use Rattle.solver.specs.Answer.{solve_of, given_by};
ghost use Rattle.solver.specs.Ends.{struck_in, broken_pair, room_of, left_by, Kept, kept-prop, Counted};

use meaning::{Ending, Fault, Reason, Refusal, Ruling, Strike};
use ranks::Market;
use reasons::{Orders, Rows, Standing};
use tables::Held;

// The sweeps' state: the rows of struck places, and the record so far in the front of its cells (there is no heap).
// No ghost field says Sweeping: between the mark in a row and the strike in the cells it doesn't hold.
#[derive(Drop)]
struct Sweeps<'a, 'r> {
    standing: &'a Standing<'a>,
    rows: &'r mut [u64],
    cells: &'r mut [u16],
    used: usize,
}

impl<'a, 'r> Sweeps<'a, 'r> {
    // The reason for which the pair at place p of i's list may be struck now; none where it is struck or not mutual.
    fn reason_at(&self, i: usize, p: usize) -> Option<Reason>
        requires { Sweeping self.now × In (n_of self.now.standing.now.market.heads.now) i × (p < length (wishes_of self.now.standing.now.market.heads.now self.now.standing.now.market.entries.now i)) }
        ensures { choice_of result ≡ reason_at self.now i p }
    {
        if rows::marked(self.rows[i], p) {
            return None;
        }
        let standing = self.standing;
        let depot = standing.market.wishes(i)[p];
        standing.choose(self.rows, i, usize::from(depot))
    }

    // Visits place p of i's list: strikes the pair there if a reason fits.
    fn visit_place(&mut self, i: usize, p: usize)
        requires { Sweeping self.old × In (n_of self.old.standing.now.market.heads.now) i × (p < length (wishes_of self.old.standing.now.market.heads.now self.old.standing.now.market.entries.now i)) }
        ensures { SweptTo self.old self.new
            (visit_by self.old.standing.now i (get_or (wishes_of self.old.standing.now.market.heads.now self.old.standing.now.market.entries.now i) p 0) (record_of self.old)) }
    {
        if let Some(reason) = self.reason_at(i, p) {
            let standing = self.standing;
            let strike = Strike {
                trainee: i as u16,
                depot: standing.market.wishes(i)[p],
                reason,
            };
            rows::mark(self.rows, i, p);
            strikes::put_strike(self.cells, self.used, strike);
            self.used += 1;
        }
    }

    // Visits i's list from its best place.
    fn visit_list(&mut self, i: usize)
        requires { Sweeping self.old × In (n_of self.old.standing.now.market.heads.now) i }
        ensures { SweptTo self.old self.new
            (row_by (visit_by self.old.standing.now) i (wishes_of self.old.standing.now.market.heads.now self.old.standing.now.market.entries.now i) (record_of self.old)) }
    {
        let standing = self.standing;
        for p in 0..standing.market.wishes(i).len() {
            self.visit_place(i, p);
        }
    }

    // One sweep: trainees upward.
    fn sweep(&mut self)
        requires { Sweeping self.old }
        ensures { SweptTo self.old self.new
            (rows_by (visit_by self.old.standing.now) (wishes_of self.old.standing.now.market.heads.now self.old.standing.now.market.entries.now) (n_of self.old.standing.now.market.heads.now) 1 (record_of self.old)) }
    {
        let standing = self.standing;
        for i in 1..standing.market.trainees() + 1 {
            self.visit_list(i);
        }
    }

    // Sweeps until one strikes nothing.
    fn sweep_all(&mut self)
        requires { Sweeping self.old × (self.old.used ≡ 0) }
        ensures { SweptTo self.old self.new
            (sweeps_by (visit_by self.old.standing.now) length (wishes_of self.old.standing.now.market.heads.now self.old.standing.now.market.entries.now) (n_of self.old.standing.now.market.heads.now) (suc (mutual_pairs (market_of self.old.standing.now.market.heads.now self.old.standing.now.market.entries.now))) []) }
    {
        // A loop and no `for`: how many sweeps strike is known only when one strikes nothing.
        loop {
            let before = self.used;
            self.sweep();
            if self.used == before {
                return;
            }
        }
    }
}

// What the sweeps leave: the orders with their market, and the rows.
#[derive(Clone, Copy)]
struct Left<'a> {
    orders: Orders<'a>,
    rows: &'a [u64],
    ghost kept: { Kept orders.market.heads.now orders.market.entries.now rows.now } by { kept-prop orders.market.heads.now orders.market.entries.now rows.now },
}

impl<'a> Left<'a> {
    // Whether the order at k holds a pair that isn't left.
    fn breaks(&self, k: usize) -> bool
        requires { k < get_or self.now.orders.cells.now 0 0 }
        ensures { result ≡ broken? (market_of self.now.orders.market.heads.now self.now.orders.market.entries.now) (struck_in self.now.orders.market.heads.now self.now.orders.market.entries.now self.now.rows.now) (order_in self.now.orders.cells.now k) }
    {
        let rows = Rows {
            market: self.orders.market,
            marks: self.rows,
        };
        self.orders.is_hold(k) && !rows.is_open(self.orders.trainee(k), self.orders.depot(k))
    }

    // The first held pair, in file order, that is struck or isn't mutual.
    fn first_broken(&self) -> Option<(u16, u16)>
        ensures { result ≡ broken_pair (first_broken (market_of self.now.orders.market.heads.now self.now.orders.market.entries.now) (struck_in self.now.orders.market.heads.now self.now.orders.market.entries.now self.now.rows.now) (orders_in self.now.orders.cells.now (get_or self.now.orders.cells.now 0 0))) }
    {
        for k in 0..self.orders.count() {
            if self.breaks(k) {
                return Some((self.orders.trainee(k) as u16, self.orders.depot(k) as u16));
            }
        }
        None
    }

    // Lays the left table over the front of a table.
    fn fill_left(&self, table: &mut [u16])
        requires { n_of self.now.orders.market.heads.now ≤ length table.old }
        ensures { table.new ≡ laid (left_table (market_of self.now.orders.market.heads.now self.now.orders.market.entries.now) (wishes_of self.now.orders.market.heads.now self.now.orders.market.entries.now) (struck_in self.now.orders.market.heads.now self.now.orders.market.entries.now self.now.rows.now)) table.old }
    {
        let rows = Rows {
            market: self.orders.market,
            marks: self.rows,
        };
        rows.lay_left(table);
    }

    // The smallest trainee who has everything down to depot j struck, if the depot has room in the left table.
    fn room_at(&self, counts: &[u16; 65], j: usize) -> Option<u16>
        requires { Counted self.now.orders.market.heads.now self.now.orders.market.entries.now self.now.rows.now counts.now × In (m_of self.now.orders.market.heads.now) j }
        ensures { choice_of result ≡ smallest (n_of self.now.orders.market.heads.now) (λ i. room? (market_of self.now.orders.market.heads.now self.now.orders.market.entries.now) (struck_in self.now.orders.market.heads.now self.now.orders.market.entries.now self.now.rows.now) (left_by self.now.orders.market.heads.now self.now.orders.market.entries.now self.now.rows.now) i j) }
    {
        let market = self.orders.market;
        if market.posts(j) <= usize::from(counts[j]) {
            return None;
        }
        let rows = Rows {
            market,
            marks: self.rows,
        };
        rows.pass_along(market.ranking(j), j).passed
    }

    // The pair of kind 2 with the smallest depot and then the smallest trainee.
    fn first_room(&self, counts: &[u16; 65]) -> Option<(u16, u16)>
        requires { Counted self.now.orders.market.heads.now self.now.orders.market.entries.now self.now.rows.now counts.now }
        ensures { room_of result ≡ room_from (market_of self.now.orders.market.heads.now self.now.orders.market.entries.now) (struck_in self.now.orders.market.heads.now self.now.orders.market.entries.now self.now.rows.now) (left_by self.now.orders.market.heads.now self.now.orders.market.entries.now self.now.rows.now) (m_of self.now.orders.market.heads.now) 1 }
    {
        for j in 1..self.orders.market.depots() + 1 {
            if let Some(i) = self.room_at(counts, j) {
                return Some((i, j as u16));
            }
        }
        None
    }

    // How many trainees the left table gives each depot.
    fn counts(&self) -> [u16; 65]
        ensures { Counted self.now.orders.market.heads.now self.now.orders.market.entries.now self.now.rows.now result }
    {
        let mut left = [0; 256];
        self.fill_left(&mut left);
        stability::counts_of(&left[..self.orders.market.trainees()])
    }

    // The ending: a broken hold, else a pair of kind 2, else placed.
    fn ending_of(&self) -> Ending
        ensures { result ≡ ending_in self.now.orders.market.heads.now self.now.orders.market.entries.now self.now.orders.cells.now self.now.rows.now }
    {
        if let Some((i, j)) = self.first_broken() {
            return Ending::NoneHeld(i, j);
        }
        match self.first_room(&self.counts()) {
            Some((i, j)) => Ending::NoneRoom(i, j),
            None => Ending::Placed,
        }
    }

    // Fills the table where the ruling places; a none leaves it as it is.
    fn lay_table(&self, ending: Ending, table: &mut [u16])
        requires { n_of self.now.orders.market.heads.now ≤ length table.old }
        ensures { table.new ≡ table_by ending (left_table (market_of self.now.orders.market.heads.now self.now.orders.market.entries.now) (wishes_of self.now.orders.market.heads.now self.now.orders.market.entries.now) (struck_in self.now.orders.market.heads.now self.now.orders.market.entries.now self.now.rows.now)) table.old }
    {
        if let Ending::Placed = ending {
            self.fill_left(table);
        }
    }
}

// All strikes, from the tables alone: the orders gathered, the start rows made, and the sweeps.
fn strike_all(orders: &Orders, rows: &mut [u64], cells: &mut [u16]) -> usize
    requires { (n_of orders.now.market.heads.now < length rows.old) × (16384 ≤ length cells.old) }
    ensures { AllStruck orders.now.market.heads.now orders.now.market.entries.now orders.now.cells.now rows.new cells.new result }
{
    let mut holds = [0; 257];
    let mut bars = [0; 257];
    orders.note_all(&mut holds, &mut bars);
    reasons::start_rows(&orders.market, rows);
    let standing = Standing {
        market: orders.market,
        holds: &holds,
        bars: &bars,
    };
    let mut sweeps = Sweeps {
        standing: &standing,
        rows,
        cells,
        used: 0,
    };
    sweeps.sweep_all();
    sweeps.used
}

// The solver on plain cells, four to a strike: the ruling, its record in the cells and its table.
pub fn solve_cells(orders: &Orders, table: &mut [u16], cells: &mut [u16]) -> Ruling
    requires { (256 ≤ length table.old) × (16384 ≤ length cells.old) }
    ensures { (p : Placement) (F : Full) → placement_of orders.now.market.heads.now orders.now.market.entries.now orders.now.cells.now ≡ some p → full p ≡ whole F → (w : WholeRuling) → solve F p.orders ≡ some w
        → SolvedAs w table.old table.new cells.new result }
{
    let mut rows = [0; 257];
    let strikes = strike_all(orders, &mut rows, cells) as u16;
    let left = Left {
        orders: *orders,
        rows: &rows,
    };
    let ending = left.ending_of();
    left.lay_table(ending, table);
    Ruling {
        trainees: orders.market.trainees() as u16,
        strikes,
        ending,
    }
}

// The solver on lent tables and plain cells, for a record with room for so many strikes: refusals 1, 8 and 7, else the ruling.
pub fn solve_lent<'a>(
    heads: &'a [u16],
    entries: &'a [u16],
    orders: &'a [u16],
    room: usize,
    table: &mut [u16],
    cells: &mut [u16],
) -> Result<Ruling, Refusal>
    requires { length cells.old ≡ 16384 }
    ensures { solve_of heads.now entries.now orders.now table.old room ≡ some (given_by result table.new cells.new) }
{
    let lent = rulings::lent_with_room(heads, entries, orders, table.len(), room)?;
    let held = Held::new(lent)?;
    if let Some(line) = held.missing_line() {
        return Err(Refusal {
            fault: Fault::NotReceived,
            line,
        });
    }
    let market = Market { heads, entries };
    let all = Orders {
        market,
        cells: orders,
    };
    let ruling = solve_cells(&all, table, cells);
    Ok(ruling)
}
