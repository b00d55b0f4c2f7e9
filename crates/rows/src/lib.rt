// A row of 64 bits keeps a mark for each place of a trainee's list, place 0 the lowest bit. specs/ says what a row's marks are.
#![tactic(auto)]

ghost use Rattle.std.specs.Prelude.{◌≡◌, ◌<◌, length, get_or, set};
ghost use Rattle.rows.specs.Marks.{is_marked, with_mark, mark_if, past_end, turned};
ghost use Rattle.rows.specs.Left.{first_place_left, number_marked, number_left};

// Whether place p is marked.
pub fn marked(row: u64, p: usize) -> bool
    requires { p < 64 }
    ensures { result ≡ is_marked row p }
{
    (row >> p) & 1 == 1
}

// The row with place p marked besides.
pub fn with_mark(row: u64, p: usize) -> u64
    requires { p < 64 }
    ensures { result ≡ with_mark row p }
{
    row | (1 << p)
}

// The next row of a loop that marks the places which a test shuts, so that the loop has no branch.
pub fn mark_if(row: u64, p: usize, shut: bool) -> u64
    requires { p < 64 }
    ensures { result ≡ mark_if row p shut }
{
    if shut { with_mark(row, p) } else { row }
}

// The best place left on a list, 64 where none is left: past every place, so that it compares with places as it is, and an Option would be no plainer.
pub fn first_left(row: u64) -> usize
    ensures { result ≡ first_place_left row }
{
    u64::trailing_zeros(!row) as usize
}

// How many places are marked: the strikes, and the places marked from the start.
pub fn number_marked(row: u64) -> usize
    ensures { result ≡ number_marked row }
{
    u64::count_ones(row) as usize
}

// How many places are left.
#[tactic(auto, unfolding(crate::specs::Left::number_left))]
pub fn number_left(row: u64) -> usize
    ensures { result ≡ number_left row }
{
    64 - number_marked(row)
}

// The row of a list of len places before any of them is marked: what lies past its end is never left.
pub fn past_end(len: usize) -> u64
    ensures { result ≡ past_end len }
{
    if len < 64 { !((1 << len) - 1) } else { 0 }
}

// The row in which what was left is marked, so that a search for a place left finds a marked one.
pub fn turn(row: u64) -> u64
    ensures { result ≡ turned row }
{
    !row
}

// Marks place p of row i.
pub fn mark(rows: &mut [u64], i: usize, p: usize)
    requires { (p < 64) × (i < length rows.old) }
    ensures { rows.new ≡ set rows.old i (with_mark (get_or rows.old i 0) p) }
{
    rows[i] = with_mark(rows[i], p);
}
