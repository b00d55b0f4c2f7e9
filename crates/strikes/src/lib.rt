// Strikes as plain cells, four to a strike, and the lent record of strikes. What solves and checks works on plain cells.
#![tactic(auto)]

ghost use Rattle.std.specs.Prelude.{◌≡◌, ◌+◌, ◌*◌, ◌<◌, ◌≤◌, length, set, Result};
ghost use Rattle.strikes.specs.Cells.{at, cells_with, filled, flat, recorded, strike_at, strikes_in, taken};

use meaning::{Refusal, Ruling, Strike};

// A strike is read back out of its cells.
pub fn strike_in(cells: &[u16], k: usize) -> Strike
    requires { 4 * k + 4 ≤ length cells.now }
    ensures { result ≡ strike_at cells.now k }
{
    let b = 4 * k;
    Strike::from([cells[b], cells[b + 1], cells[b + 2], cells[b + 3]])
}

// A strike goes into its cells, and no other cell changes.
pub fn put_strike(cells: &mut [u16], k: usize, s: Strike)
    requires { 4 * k + 4 ≤ length cells.old }
    ensures { cells.new ≡ cells_with cells.old k s }
{
    let b = 4 * k;
    cells[b..b + 4].copy_from_slice(&<[u16; 4]>::from(s));
}

// The length of a record.
pub fn record_len(log: &[Strike]) -> usize
    ensures { result ≡ length log.now }
{
    log.len()
}

// One strike is taken out of a record.
pub fn strike_at(log: &[Strike], k: usize) -> Strike
    requires { k < length log.now }
    ensures { result ≡ at log.now k }
{
    log[k]
}

// One strike is stored in a record.
pub fn store(log: &mut [Strike], k: usize, s: Strike)
    requires { k < length log.old }
    ensures { log.new ≡ set log.old k s }
{
    log[k] = s;
}

// The strikes that the cells hold go into the record's front, and the rest of the record stays. What fills has a loop for each pair of source and target:
// a closure for where the k-th strike comes from, with a law for each, would be no plainer.
pub fn fill_record(log: &mut [Strike], cells: &[u16], count: usize)
    requires { (count ≤ length log.old) × (4 * count ≤ length cells.now) }
    ensures { log.new ≡ filled cells.now log.old count }
{
    for k in 0..count {
        store(log, k, strike_in(cells, k));
    }
}

// The record's front goes into the cells, and the cells past it stay.
pub fn flatten(log: &[Strike], count: usize, cells: &mut [u16])
    requires { (count ≤ length log.now) × (4 * count ≤ length cells.old) }
    ensures { cells.new ≡ flat log.now cells.old count }
{
    for k in 0..count {
        put_strike(cells, k, strike_at(log, k));
    }
}

// How many strikes go into the record with an answer: a refusal changes nothing.
#[tactic(auto, unfolding(crate::specs::Cells::recorded))]
pub fn recorded_by(r: Result<Ruling, Refusal>) -> usize
    ensures { result ≡ recorded r }
{
    r.map_or(0, |ruling| usize::from(ruling.strikes))
}

// How many strikes to flatten, so that a ruling with more than the record holds needs no branch before it is refused.
pub fn taken_of(count: u16, room: usize) -> usize
    ensures { result ≡ taken count room }
{
    usize::from(count).min(room.min(4096))
}

// The strikes that some cells hold go over the front of others, as the numbers of each strike and no others, and the rest of those stays.
pub fn lay_strikes(cells: &[u16], count: usize, out: &mut [u16])
    requires { (4 * count ≤ length cells.now) × (4 * count ≤ length out.old) }
    ensures { out.new ≡ flat (strikes_in cells.now count) out.old count }
{
    for k in 0..count {
        put_strike(out, k, strike_in(cells, k));
    }
}
