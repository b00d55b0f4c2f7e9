// The lent tables: what their cells hold, and what can be read from them.
#![tactic(auto)]

ghost use Rattle.std.specs.Prelude.{◌≡◌, not, false, true, List, [], ℕ, ◌+◌, ◌-◌, ◌*◌, ◌≤◌, ◌<◌, length, get_or, drop, MatchResult, Result, Ok};
ghost use Rattle.std.proofs.Math.Option.{some};
ghost use Rattle.meaning.specs.Numbers.{◌&◌};
ghost use Rattle.meaning.specs.Lists.{weigh};
ghost use Rattle.meaning.specs.Placement.{Placement, size};
ghost use Rattle.meaning.specs.Full.{full};
ghost use Rattle.tables.specs.Cells.{CellGives, trainee_start, depot_start, order_start, part, HeadRoom};
ghost use Rattle.tables.specs.Decode.{within, good_entries, posts_from, trainee_from, order_from, orders_from, series_from, limits, Sides, lists_from, sides_of, few_orders_of, placement_of};
ghost use Rattle.tables.specs.Answers.{sized, full_sides, LineOf, said_by, receipt_of, trainee_list, trainee_receipt};
ghost use Rattle.tables.specs.Kinds.{Stands, KindGives};
ghost use Rattle.tables.specs.Walk.{is_some, end_of, Ends, all_posts, trainee_missing, depot_missing};

use meaning::{Fault, Receipt, Refusal};

// What an order says of its pair.
#[derive(Clone, Copy, PartialEq, Eq)]
pub enum Kind {
    Held,
    Barred,
}

// A cell that stands for no kind.
#[derive(Clone, Copy, PartialEq, Eq)]
pub struct UnknownKind(pub u16);

impl TryFrom<u16> for Kind {
    type Error = UnknownKind;

    ghost try_from_gives = { Stands };

    // The kind that a cell stands for.
    fn try_from(cell: u16) -> Result<Self, UnknownKind> {
        match cell {
            0 => Ok(Kind::Held),
            1 => Ok(Kind::Barred),
            _ => Err(UnknownKind(cell)),
        }
    }
}

// The cell of a length or of posts not received.
pub const NOT_RECEIVED: usize = 65535;

// The number in a cell.
fn cell(table: &[u16], at: usize) -> usize
    requires { at < length table.now }
    ensures { result ≡ get_or table.now at 0 }
{
    usize::from(table[at])
}

// The length or the posts in a cell; none where they were not received.
fn received(table: &[u16], at: usize) -> Option<usize>
    requires { at < length table.now }
    ensures { CellGives (get_or table.now at 0) result }
{
    let v = cell(table, at);
    if v == NOT_RECEIVED { None } else { Some(v) }
}

// The edition.
fn edition_of(heads: &[u16]) -> usize
    requires { 2 < length heads.now }
    ensures { result ≡ get_or heads.now 0 0 }
{
    cell(heads, 0)
}

// The number of trainees.
pub fn trainees_of(heads: &[u16]) -> usize
    requires { 2 < length heads.now }
    ensures { result ≡ get_or heads.now 1 0 }
{
    cell(heads, 1)
}

// The number of depots.
pub fn depots_of(heads: &[u16]) -> usize
    requires { 2 < length heads.now }
    ensures { result ≡ get_or heads.now 2 0 }
{
    cell(heads, 2)
}

// Where trainee i's cells stand.
pub fn trainee_at(i: usize) -> usize
    requires { i ≤ 256 }
    ensures { result ≡ trainee_start i }
{
    2 * i + 1
}

// Where depot j's cells stand, behind those of n trainees.
pub fn depot_at(n: usize, j: usize) -> usize
    requires { (n ≤ 256) × (j ≤ 64) }
    ensures { result ≡ depot_start n j }
{
    2 * n + 3 * j
}

// Where the list begins whose cells stand at `at`.
pub fn start_of(heads: &[u16], at: usize) -> usize
    requires { at < length heads.now }
    ensures { result ≡ get_or heads.now at 0 }
{
    cell(heads, at)
}

// The length of the list whose cells stand at `at`; none where the list was not received.
pub fn length_of(heads: &[u16], at: usize) -> Option<usize>
    requires { at + 1 < length heads.now }
    ensures { CellGives (get_or heads.now (at + 1) 0) result }
{
    received(heads, at + 1)
}

// The posts of the depot whose cells stand at `at`; none where they were not received.
pub fn posts_of(heads: &[u16], at: usize) -> Option<usize>
    requires { at + 2 < length heads.now }
    ensures { CellGives (get_or heads.now (at + 2) 0) result }
{
    received(heads, at + 2)
}

// The number of orders.
pub fn orders_of(orders: &[u16]) -> usize
    requires { 0 < length orders.now }
    ensures { result ≡ get_or orders.now 0 0 }
{
    cell(orders, 0)
}

// Where the cells of the order stand that k others stand before.
pub fn order_at(k: usize) -> usize
    requires { k ≤ 65535 }
    ensures { result ≡ order_start k }
{
    3 * k + 1
}

// The number in the cell of an order's kind, whose cells stand at `at`.
pub fn order_kind(orders: &[u16], at: usize) -> usize
    requires { at < length orders.now }
    ensures { result ≡ get_or orders.now at 0 }
{
    cell(orders, at)
}

// The kind of the order whose cells stand at `at`; none where the number is no kind's.
pub fn kind_at(orders: &[u16], at: usize) -> Option<Kind>
    requires { at < length orders.now }
    ensures { KindGives (get_or orders.now at 0) result }
{
    Kind::try_from(orders[at]).ok()
}

// The trainee of the order whose cells stand at `at`.
pub fn order_trainee(orders: &[u16], at: usize) -> usize
    requires { at + 1 < length orders.now }
    ensures { result ≡ get_or orders.now (at + 1) 0 }
{
    cell(orders, at + 1)
}

// The depot of the order whose cells stand at `at`.
pub fn order_depot(orders: &[u16], at: usize) -> usize
    requires { at + 2 < length orders.now }
    ensures { result ≡ get_or orders.now (at + 2) 0 }
{
    cell(orders, at + 2)
}

// The list whose cells stand at `at`, as the part of the entries that holds it.
pub fn list_at<'a>(heads: &[u16], entries: &'a [u16], at: usize) -> &'a [u16]
    requires { (at + 1 < length heads.now) × (get_or heads.now at 0 + get_or heads.now (at + 1) 0 ≤ length entries.now) }
    ensures { result.now ≡ part heads.now entries.now at }
{
    let start = start_of(heads, at);
    let end = start + cell(heads, at + 1);
    &entries[start..end]
}

// Whether x is one of 1 to hi.
fn in_range(x: usize, hi: usize) -> bool
    ensures { result ≡ within hi x }
{
    1 <= x && x <= hi
}

// Whether x is one of 1 to hi and has no mark.
fn fresh(marks: &[bool; 257], x: usize, hi: usize) -> bool
    requires { hi ≤ 256 }
    ensures { result ≡ within hi x & not (get_or marks.now x false) }
{
    in_range(x, hi) && !marks[x]
}

// Whether a list names only 1 to hi and nobody twice; from the last one back, so that the marks are those of the entries behind.
fn good_entries(list: &[u16], hi: usize) -> bool
    requires { hi ≤ 256 }
    ensures { result ≡ good_entries hi list.now }
{
    let mut marks: [bool; 257] = [false; 257];
    for x in list.iter().rev() {
        let x = *x as usize;
        if !fresh(&marks, x, hi) {
            return false;
        }
        marks[x] = true;
    }
    true
}

// Where the list ends whose cells stand at `at` and whose entries start at s; none if no reader could have filled the cells. The length is read where there is
// one: taken out of `length_of`, it would be made for a list not received too.
fn list_end(heads: &[u16], entries: &[u16], at: usize, s: usize, hi: usize) -> Option<usize>
    requires { (at + 1 < length heads.now) × (s ≤ length entries.now) × (hi ≤ 256) }
    ensures { Ends (length entries.now) (end_of size s (trainee_from hi s (drop at heads.now) (drop s entries.now))) result }
{
    if start_of(heads, at) != s {
        return None;
    }
    if length_of(heads, at).is_none() {
        return Some(s);
    }
    let v = cell(heads, at + 1);
    let to = s + v;
    let list = entries.get(s..to)?;
    if v <= hi && good_entries(list, hi) {
        Some(to)
    } else {
        None
    }
}

// Where the cells of one side's lists stand in the heads, `wide` of them for each, and up to whom the lists name.
#[derive(Clone, Copy)]
struct Side {
    first: usize,
    wide: usize,
    count: usize,
    named: usize,
    ghost limits: { (2 ≤ wide) × (wide ≤ 3) × (count ≤ 256) × (named ≤ 256) },
}

impl Side {
    // Where the last of the lists ends, if the entries of the first start at `start`.
    fn end(self, heads: &[u16], entries: &[u16], start: usize) -> Option<usize>
        requires { (self.first + self.wide * self.count ≤ length heads.now) × (start ≤ length entries.now) }
        ensures { Ends (length entries.now) (end_of (weigh size) start (series_from (trainee_from self.named) size self.wide self.count start (drop self.first heads.now) (drop start entries.now))) result }
    {
        let mut s = start;
        for k in 0..self.count {
            s = list_end(heads, entries, self.first + self.wide * k, s, self.named)?;
        }
        Some(s)
    }
}

// Whether the posts of the depot whose cells stand at `at` are in range, or not received.
fn posts_ok(heads: &[u16], at: usize) -> bool
    requires { at + 2 < length heads.now }
    ensures { result ≡ is_some (posts_from (get_or heads.now (at + 2) 0)) }
{
    posts_of(heads, at).is_none_or(|v| v <= 256)
}

// Whether the posts of each of m depots are in range, or not received.
fn all_posts_ok(heads: &[u16], n: usize, m: usize) -> bool
    requires { (3 + 2 * n + 3 * m ≤ length heads.now) × (n ≤ 256) × (m ≤ 64) }
    ensures { result ≡ all_posts m (drop (3 + 2 * n) heads.now) }
{
    (1..m + 1).all(|j| posts_ok(heads, depot_at(n, j)))
}

// Whether the edition is this reader's, and n and m are in range.
fn limits_ok(edition: usize, n: usize, m: usize) -> bool
    ensures { result ≡ limits edition n m }
{
    edition == 1 && n <= 256 && m <= 64
}

// Whether the lists and posts are ones that a reader fills: what refuses most cheaply is asked before the depots' lists are walked.
fn lists_ok(heads: &[u16], entries: &[u16], n: usize, m: usize) -> bool
    requires { (707 ≤ length heads.now) × (n ≤ 256) × (m ≤ 64) }
    ensures { result ≡ is_some (lists_from (get_or heads.now 0 0) n m (drop 3 heads.now) entries.now) }
{
    let trainees = Side {
        first: 3,
        wide: 2,
        count: n,
        named: m,
    };
    let depots = Side {
        first: 3 + 2 * n,
        wide: 3,
        count: m,
        named: n,
    };
    let Some(s) = trainees.end(heads, entries, 0) else {
        return false;
    };
    if 4096 < s || !all_posts_ok(heads, n, m) {
        return false;
    }
    let Some(f) = depots.end(heads, entries, s) else {
        return false;
    };
    f - s <= 4096
}

// Whether heads and entries hold the sides of a placement.
pub fn sides_ok(heads: &[u16], entries: &[u16]) -> bool
    requires { 707 ≤ length heads.now }
    ensures { result ≡ is_some (sides_of heads.now entries.now) }
{
    let n = trainees_of(heads);
    let m = depots_of(heads);
    limits_ok(edition_of(heads), n, m) && lists_ok(heads, entries, n, m)
}

// Whether the cells at `at` are an order.
fn order_ok(orders: &[u16], at: usize, n: usize, m: usize) -> bool
    requires { at + 2 < length orders.now }
    ensures { result ≡ is_some (order_from n m 0 (drop at orders.now) []) }
{
    kind_at(orders, at).is_some()
        && in_range(order_trainee(orders, at), n)
        && in_range(order_depot(orders, at), m)
}

// Whether the first `count` orders are ones. Compiled apart, so that the loop keeps what it reads in registers.
#[inline(never)]
fn first_orders_ok(orders: &[u16], count: usize, n: usize, m: usize) -> bool
    requires { (1 + 3 * count ≤ length orders.now) × (count ≤ 1024) }
    ensures { result ≡ is_some (orders_from n m count (drop 1 orders.now)) }
{
    for k in 0..count {
        if !order_ok(orders, order_at(k), n, m) {
            return false;
        }
    }
    true
}

// Whether a table holds orders of n trainees and m depots, no more than a file may have.
pub fn orders_ok(orders: &[u16], n: usize, m: usize) -> bool
    requires { 3073 ≤ length orders.now }
    ensures { result ≡ is_some (few_orders_of n m orders.now) }
{
    let count = orders_of(orders);
    count <= 1024 && first_orders_ok(orders, count, n, m)
}

// Whether a reader could have filled the used cells: number 8 is given back where none could, which is where no legal placement has these fronts
// (`refused-exactly`, proofs/Round). It takes the parts and no `Lent`, which would ask more: its promise holds of entries of any length.
pub fn used_cells_ok(heads: &[u16], entries: &[u16], orders: &[u16]) -> bool
    requires { (707 ≤ length heads.now) × (3073 ≤ length orders.now) }
    ensures { result ≡ is_some (placement_of heads.now entries.now orders.now) }
{
    sides_ok(heads, entries) && orders_ok(orders, trainees_of(heads), depots_of(heads))
}

// Whether trainee i's list was not received.
fn trainee_lacks(heads: &[u16], i: usize) -> bool
    requires { (2 * i + 2 < length heads.now) × (i ≤ 256) }
    ensures { result ≡ trainee_missing heads.now i }
{
    length_of(heads, trainee_at(i)).is_none()
}

// Whether depot j's posts or list were not received.
fn depot_lacks(heads: &[u16], n: usize, j: usize) -> bool
    requires { (2 * n + 3 * j + 2 < length heads.now) × (n ≤ 256) × (j ≤ 64) }
    ensures { result ≡ depot_missing heads.now n j }
{
    let at = depot_at(n, j);
    posts_of(heads, at).is_none() || length_of(heads, at).is_none()
}

// The line that number 7 gives for heads that hold a placement's, whatever the entries beside them; none where all was received (`whole-at-zero`,
// proofs/Lines).
pub fn first_missing_line(heads: &[u16]) -> Option<u16>
    requires { HeadRoom heads.now }
    ensures { (e : List ℕ) (b : Sides) → sides_of heads.now e ≡ some b → LineOf (full_sides b) result }
{
    let n = trainees_of(heads);
    if let Some(i) = (1..n + 1).find(|i| trainee_lacks(heads, *i)) {
        return Some((1 + i) as u16);
    }
    let j = (1..depots_of(heads) + 1).find(|j| depot_lacks(heads, n, *j))?;
    Some((n + 1 + j) as u16)
}

// Whether each lent table has its full size: number 1 is given back where one has not. This and the next tests take the parts, since the types are built by them.
pub fn sizes_ok(heads: &[u16], entries: &[u16], orders: &[u16]) -> bool
    ensures { result ≡ sized heads.now entries.now orders.now }
{
    707 <= heads.len() && 8192 <= entries.len() && 3073 <= orders.len()
}

// The three tables that a caller lends, each of its full size.
#[derive(Clone, Copy)]
pub struct Lent<'a> {
    pub heads: &'a [u16],
    pub entries: &'a [u16],
    pub orders: &'a [u16],
    pub ghost sized: { sized heads.now entries.now orders.now ≡ true },
}

impl<'a> Lent<'a> {
    // The tables, or number 1 where one of them is too short.
    pub fn new(heads: &'a [u16], entries: &'a [u16], orders: &'a [u16]) -> Result<Self, Fault>
        ensures { MatchResult result (λ t. (t.heads.now ≡ heads.now) × (t.entries.now ≡ entries.now) × (t.orders.now ≡ orders.now))
            (λ f. (f ≡ Fault.ShortPart) × (sized heads.now entries.now orders.now ≡ false)) }
    {
        if !sizes_ok(heads, entries, orders) {
            return Err(Fault::ShortPart);
        }
        Ok(Lent {
            heads,
            entries,
            orders,
        })
    }
}

// Lent tables whose used cells a reader could have filled.
#[derive(Clone, Copy)]
pub struct Held<'a> {
    pub heads: &'a [u16],
    pub entries: &'a [u16],
    pub orders: &'a [u16],
    pub ghost sized: { sized heads.now entries.now orders.now ≡ true },
    pub ghost held: { is_some (placement_of heads.now entries.now orders.now) ≡ true },
}

impl<'a> Held<'a> {
    // The tables, or number 8 where no reader could have filled their used cells.
    pub fn new(lent: Lent<'a>) -> Result<Self, Fault>
        ensures { MatchResult result (λ t. (t.heads.now ≡ lent.entry.heads.now) × (t.entries.now ≡ lent.entry.entries.now) × (t.orders.now ≡ lent.entry.orders.now))
            (λ f. (f ≡ Fault.NotRead) × (is_some (placement_of lent.entry.heads.now lent.entry.entries.now lent.entry.orders.now) ≡ false)) }
    {
        let Lent {
            heads,
            entries,
            orders,
        } = lent;
        if !used_cells_ok(heads, entries, orders) {
            return Err(Fault::NotRead);
        }
        Ok(Held {
            heads,
            entries,
            orders,
        })
    }

    // The number of trainees.
    pub fn trainees(&self) -> usize
        ensures { result ≡ get_or self.now.heads.now 1 0 }
    {
        trainees_of(self.heads)
    }

    // The line that number 7 gives; none where all was received.
    pub fn missing_line(&self) -> Option<u16>
        ensures { (p : Placement) → placement_of self.now.heads.now self.now.entries.now self.now.orders.now ≡ some p → LineOf (full p) result }
    {
        first_missing_line(self.heads)
    }
}

// What tells an empty list from none, for heads that hold a placement's, whatever the entries beside them.
fn receipt_in(heads: &[u16], i: usize) -> Receipt
    requires { HeadRoom heads.now }
    ensures { (e : List ℕ) (b : Sides) → sides_of heads.now e ≡ some b → Ok result ≡ receipt_of (said_by b.trainees i) }
{
    if !in_range(i, trainees_of(heads)) {
        return Receipt::OutOfRange;
    }
    if length_of(heads, trainee_at(i)).is_none() {
        return Receipt::NotReceived;
    }
    Receipt::Received
}

// Whether trainee i's list was received, or why that can't be said.
pub fn trainee_receipt(
    heads: &[u16],
    entries: &[u16],
    orders: &[u16],
    i: usize,
) -> Result<Receipt, Refusal>
    ensures { result ≡ trainee_receipt heads.now entries.now orders.now i }
{
    let lent = Lent::new(heads, entries, orders)?;
    let held = Held::new(lent)?;
    Ok(receipt_in(held.heads, i))
}

// Trainee i's list, as the part of the lent entries that holds it; the empty part where the receipt is not that it was received.
pub fn trainee_list<'a>(heads: &[u16], entries: &'a [u16], orders: &[u16], i: usize) -> &'a [u16]
    ensures { result.now ≡ trainee_list heads.now entries.now orders.now i }
{
    let Ok(receipt) = trainee_receipt(heads, entries, orders, i) else {
        return &entries[0..0];
    };
    if let Receipt::Received = receipt {
        list_at(heads, entries, trainee_at(i))
    } else {
        &entries[0..0]
    }
}
