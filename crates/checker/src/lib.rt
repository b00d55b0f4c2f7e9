// The checker of a ruling in plain cells: its strikes are replayed on rows of struck places, then the ending is tried.
#![tactic(auto)]

ghost use Rattle.std.specs.Prelude.{◌≡◌, ℕ, ◌+◌, ◌-◌, ◌*◌, ◌≤◌, ◌<◌, length, get_or, take, leb, eqb, ltb, not};
ghost use Rattle.meaning.specs.Numbers.{In, ◌&◌};
ghost use Rattle.meaning.specs.Lists.{place};
ghost use Rattle.meaning.specs.Market.{mutual?};
ghost use Rattle.ranks.specs.View.{n_of, m_of, posts_of, market_of};
ghost use Rattle.reasons.specs.Scans.{count_in};
ghost use Rattle.reasons.specs.Reasons.{settled, above_of};
ghost use Rattle.checker.specs.Step.{ordered, fits_in, may_strike, rows_with};
ghost use Rattle.checker.specs.Ends.{left_cells, obeys_rows, all_obey, table_fits, placed_in, broken_in, room_in, ends_in, NamesTrainee};
ghost use Rattle.checker.specs.Check.{FullPlacement, RulingCells, CheckSays, check_in};
ghost use Rattle.checker.specs.Turns.{TraineesIn, rows_after, Going, ReplaySays};

use meaning::{Ending, Reason, Rejection, Ruling, Strike, Tested};
use ranks::Market;
use reasons::{Far, Orders, Rows, Standing};
use stability::Trial;

// Whether a row of orders marks depot j, which may be any number.
fn marks_depot(row: u64, m: usize, j: usize) -> bool
    requires { m ≤ 64 }
    ensures { result ≡ ordered m row j }
{
    if j < 1 || m < j {
        return false;
    }
    rows::marked(row, j - 1)
}

// Whether a trainee with this row of holds is held at k, and k isn't j: reason 2 with its witness.
fn held_elsewhere(row: u64, m: usize, k: usize, j: usize) -> bool
    requires { m ≤ 64 }
    ensures { result ≡ ordered m row k & not (eqb k j) }
{
    marks_depot(row, m, k) && k != j
}

// The part of j's list above i, nothing where it doesn't rank i.
fn above_part<'a>(market: &Market<'a>, i: usize, j: usize) -> &'a [u16]
    requires { In (m_of market.now.heads.now) j }
    ensures { result.now ≡ above_of market.now.heads.now market.now.entries.now i j }
{
    let ranking = market.ranking(j);
    let end = ranks::place_on(ranking, i).unwrap_or(0);
    &ranking[..end]
}

// Reason 3: as many as j has posts are above i on its list and have everything above j struck.
fn posts_gone(rows: &Rows, i: usize, j: usize) -> bool
    requires { In (m_of rows.now.market.heads.now) j }
    ensures { result ≡ leb (posts_of rows.now.market.heads.now j) (count_in (settled rows.now.market.heads.now rows.now.market.entries.now rows.now.marks.now 1 j) (above_of rows.now.market.heads.now rows.now.market.entries.now i j)) }
{
    let t = rows.pass_along(above_part(&rows.market, i, j), j);
    rows.market.posts(j) <= t.settled
}

// Reason 4 with its witness k: above i on j's list, with everything down to j struck.
fn passed_by(rows: &Rows, i: usize, j: usize, k: usize) -> bool
    requires { In (m_of rows.now.market.heads.now) j }
    ensures { result ≡ ltb 0 (place (above_of rows.now.market.heads.now rows.now.market.entries.now i j) k) & settled rows.now.market.heads.now rows.now.market.entries.now rows.now.marks.now 0 j k }
{
    let above = above_part(&rows.market, i, j);
    ranks::place_on(above, k).is_some() && rows.settled_with(j, k) == Far::Down
}

// Whether the reason, with its own witness, fits the pair now; no other witness is looked for. The rows come without their market, which is the standing's.
fn reason_fits(standing: &Standing, marks: &[u64], i: usize, j: usize, why: Reason) -> bool
    requires { In (n_of standing.now.market.heads.now) i × In (m_of standing.now.market.heads.now) j × (n_of standing.now.market.heads.now < length marks.now) }
    ensures { result ≡ fits_in standing.now.market.heads.now standing.now.market.entries.now standing.now.holds.now standing.now.bars.now marks.now i j why }
{
    let rows = Rows {
        market: standing.market,
        marks,
    };
    match why {
        Reason::Barred => rows::marked(standing.bars[i], j - 1),
        Reason::HeldElsewhere(k) => held_elsewhere(
            standing.holds[i],
            standing.market.depots(),
            usize::from(k),
            j,
        ),
        Reason::PostsGone => posts_gone(&rows, i, j),
        Reason::Passed(k) => passed_by(&rows, i, j, usize::from(k)),
    }
}

// One step: whether the strike is allowed now.
pub fn may_strike(standing: &Standing, marks: &[u64], s: Strike) -> bool
    requires { In (n_of standing.now.market.heads.now) s.trainee × (n_of standing.now.market.heads.now < length marks.now) }
    ensures { result ≡ may_strike standing.now.market.heads.now standing.now.market.entries.now standing.now.holds.now standing.now.bars.now marks.now s }
{
    let rows = Rows {
        market: standing.market,
        marks,
    };
    let i = usize::from(s.trainee);
    let j = usize::from(s.depot);
    rows.is_open(i, j) && reason_fits(standing, marks, i, j, s.reason)
}

// One step on the rows: an allowed strike is marked, any other changes nothing.
// Standing and rows are no one struct: only the rows change, and each step would have to say that the struct keeps the rest; two parameters are plainer.
fn strike_one(standing: &Standing, marks: &mut [u64], s: Strike) -> bool
    requires { In (n_of standing.now.market.heads.now) s.trainee × (n_of standing.now.market.heads.now < length marks.old) }
    ensures { (result ≡ may_strike standing.now.market.heads.now standing.now.market.entries.now standing.now.holds.now standing.now.bars.now marks.old s)
        × (marks.new ≡ rows_after result (rows_with standing.now.market.heads.now standing.now.market.entries.now marks.old s) marks.old) }
{
    if !may_strike(standing, marks, s) {
        return false;
    }
    let i = usize::from(s.trainee);
    if let Some(p) = ranks::place_on(standing.market.wishes(i), usize::from(s.depot)) {
        rows::mark(marks, i, p);
    }
    true
}

// Replays the strikes in turn, up to the first that isn't allowed, whose number it gives.
fn replay(
    standing: &Standing,
    marks: &mut [u64],
    cells: &[u16],
    count: usize,
) -> Result<(), Rejection>
    requires { TraineesIn (n_of standing.now.market.heads.now) cells.now count
        × Going standing.now.market.heads.now standing.now.market.entries.now standing.now.holds.now standing.now.bars.now cells.now count 0 marks.old
        × (4 * count ≤ length cells.now) × (count ≤ 4096) }
    ensures { ReplaySays standing.now.market.heads.now standing.now.market.entries.now standing.now.holds.now standing.now.bars.now cells.now count marks.new result }
{
    for k in 0..count {
        if !strike_one(standing, marks, strikes::strike_in(cells, k)) {
            return Err(Rejection::NotAllowed((k + 1) as u16));
        }
    }
    Ok(())
}

// The left table, in the front of an array, since there is no heap.
fn left_table(rows: &Rows) -> [u16; 256]
    ensures { take (n_of rows.now.market.heads.now) result ≡ left_cells rows.now.market.heads.now rows.now.market.entries.now rows.now.marks.now (n_of rows.now.market.heads.now) }
{
    let mut left = [0; 256];
    rows.lay_left(&mut left);
    left
}

// Whether a trainee at depot c, 0 for none as the cell of a table has it, is wherever they are held and nowhere from where they are barred.
fn obeys_rows(held: u64, barred: u64, c: usize) -> bool
    requires { c ≤ 64 }
    ensures { result ≡ obeys_rows held barred c }
{
    if c == 0 {
        return rows::first_left(rows::turn(held)) == 64;
    }
    let place = c - 1;
    !rows::marked(barred, place) && rows::first_left(rows::with_mark(rows::turn(held), place)) == 64
}

// Whether a table has every held pair and no barred one.
fn all_obey(standing: &Standing, cells: &[u16]) -> bool
    requires { (length cells.now ≡ n_of standing.now.market.heads.now) × ((k : ℕ) → k < length cells.now → get_or cells.now k 0 ≤ 64) }
    ensures { result ≡ all_obey (n_of standing.now.market.heads.now) standing.now.holds.now standing.now.bars.now cells.now }
{
    for (k, c) in cells.iter().enumerate() {
        if !obeys_rows(standing.holds[k + 1], standing.bars[k + 1], usize::from(*c)) {
            return false;
        }
    }
    true
}

// Kind 1: the named pair is held, and is struck or not mutual.
fn held_broken(holds: &[u64], rows: &Rows, i: usize, j: usize) -> bool
    requires { (n_of rows.now.market.heads.now < length holds.now) × In (n_of rows.now.market.heads.now) i }
    ensures { result ≡ broken_in rows.now.market.heads.now rows.now.market.entries.now holds.now rows.now.marks.now i j }
{
    marks_depot(holds[i], rows.market.depots(), j) && !rows.is_open(i, j)
}

// Whether the named pair is mutual, everything of the trainee down to the depot is struck, and the counts leave room there.
fn room_at(rows: &Rows, counts: &[u16; 65], i: usize, j: usize) -> bool
    requires { In (n_of rows.now.market.heads.now) i }
    ensures { result ≡ (mutual? (market_of rows.now.market.heads.now rows.now.market.entries.now) i j
        & (settled rows.now.market.heads.now rows.now.market.entries.now rows.now.marks.now 0 j i & ltb (get_or counts.now j 0) (posts_of rows.now.market.heads.now j))) }
{
    if !rows.market.is_mutual(i, j) {
        return false;
    }
    rows.settled_with(j, i) == Far::Down && usize::from(counts[j]) < rows.market.posts(j)
}

// Kind 2: the left table exceeds no posts, and the named pair meets room in it.
fn room_left(rows: &Rows, i: usize, j: usize) -> bool
    requires { In (n_of rows.now.market.heads.now) i }
    ensures { result ≡ room_in rows.now.market.heads.now rows.now.market.entries.now rows.now.marks.now i j }
{
    let left = left_table(rows);
    let trial = Trial {
        market: rows.market,
        table: &left[..rows.market.trainees()],
    };
    let counts = stability::counts_of(trial.table);
    trial.first_over(&counts).is_none() && room_at(rows, &counts, i, j)
}

// Whether the ruling's table has these cells, and they are stable, with every held pair and no barred one.
fn table_fits(standing: &Standing, cells: &[u16], table: &[u16]) -> bool
    requires { (length cells.now ≡ n_of standing.now.market.heads.now) × (n_of standing.now.market.heads.now ≤ length table.now) }
    ensures { result ≡ table_fits standing.now.market.heads.now standing.now.market.entries.now standing.now.holds.now standing.now.bars.now cells.now table.now }
{
    if &table[..cells.len()] != cells {
        return false;
    }
    let trial = Trial {
        market: standing.market,
        table: cells,
    };
    match trial.tested() {
        Tested::Stable => all_obey(standing, cells),
        _ => false,
    }
}

// Placed: the ruling's table is the left table, and that is respecting.
fn placed_fits(standing: &Standing, marks: &[u64], table: &[u16]) -> bool
    requires { (n_of standing.now.market.heads.now < length marks.now) × (n_of standing.now.market.heads.now ≤ length table.now) }
    ensures { result ≡ placed_in standing.now.market.heads.now standing.now.market.entries.now standing.now.holds.now standing.now.bars.now marks.now table.now }
{
    let rows = Rows {
        market: standing.market,
        marks,
    };
    let left = left_table(&rows);
    table_fits(standing, &left[..standing.market.trainees()], table)
}

// Whether the ending fits what is struck.
fn ending_fits(standing: &Standing, marks: &[u64], ending: Ending, table: &[u16]) -> bool
    requires { (n_of standing.now.market.heads.now < length marks.now) × (n_of standing.now.market.heads.now ≤ length table.now) × NamesTrainee (n_of standing.now.market.heads.now) ending }
    ensures { result ≡ ends_in standing.now.market.heads.now standing.now.market.entries.now standing.now.holds.now standing.now.bars.now marks.now ending table.now }
{
    let rows = Rows {
        market: standing.market,
        marks,
    };
    match ending {
        Ending::Placed => placed_fits(standing, marks, table),
        Ending::NoneHeld(i, j) => held_broken(
            standing.holds,
            &rows,
            usize::from(i),
            usize::from(j),
        ),
        Ending::NoneRoom(i, j) => room_left(&rows, usize::from(i), usize::from(j)),
    }
}

// The answer once the rows are those of the start and the orders are gathered: the strikes in turn, then the ending.
fn check_rows(
    standing: &Standing,
    marks: &mut [u64],
    ruling: Ruling,
    table: &[u16],
    cells: &[u16],
) -> Result<(), Rejection>
    requires { RulingCells standing.now.market.heads.now ruling table.now cells.now
        × Going standing.now.market.heads.now standing.now.market.entries.now standing.now.holds.now standing.now.bars.now cells.now ruling.strikes 0 marks.old }
    ensures { CheckSays standing.now.market.heads.now standing.now.market.entries.now standing.now.holds.now standing.now.bars.now ruling table.now cells.now result }
{
    replay(standing, marks, cells, usize::from(ruling.strikes))?;
    if ending_fits(standing, marks, ruling.ending, table) {
        Ok(())
    } else {
        Err(Rejection::NotAllowed(ruling.strikes + 1))
    }
}

// The checker's answer to a ruling on full tables: its head, its table and the cells of its strikes.
pub fn check_cells<'a>(
    heads: &'a [u16],
    entries: &'a [u16],
    orders: &'a [u16],
    ruling: Ruling,
    table: &[u16],
    cells: &[u16],
) -> Result<(), Rejection>
    requires { FullPlacement heads.now entries.now orders.now × RulingCells heads.now ruling table.now cells.now }
    ensures { result ≡ check_in heads.now entries.now orders.now ruling table.now cells.now }
{
    let market = Market { heads, entries };
    let its_orders = Orders {
        market,
        cells: orders,
    };
    let mut holds = [0; 257];
    let mut bars = [0; 257];
    its_orders.note_all(&mut holds, &mut bars);
    let mut marks = [0; 257];
    reasons::start_rows(&market, &mut marks);
    let standing = Standing {
        market,
        holds: &holds,
        bars: &bars,
    };
    check_rows(&standing, &mut marks, ruling, table, cells)
}
