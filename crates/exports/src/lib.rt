// The C interface: the public functions over plain slices. Each answer is given as its numbers, laid over the front of 8 or more lent cells, and
// each function returns how many they are. With fewer than 8 cells it returns 0 and changes nothing: each tests that before its call, as the interface says.
#![tactic(auto)]

ghost use Rattle.std.specs.Prelude.{◌≡◌, ℕ, List, [], ◌∷◌, ◌≤◌, length};
ghost use Rattle.std.proofs.Math.Option.{some};
ghost use Rattle.meaning.specs.Answers.{refusal_numbers, reading_numbers, writing_numbers, receipt_numbers, tested_numbers, ruled_numbers};
ghost use Rattle.tables.specs.Cells.{laid};
ghost use Rattle.exports.specs.Calls.{call, read_call, write_call, receipt_call, test_call, solve_call};

use meaning::{Ending, Receipt, Refusal, Ruling, Tested};

// What can be given back as numbers.
trait Answer {
    ghost numbers: { Self → List ℕ };
    // The numbers over the front of an answer's cells: how many they are.
    fn lay(self, answer: &mut [u64]) -> usize
        requires { 8 ≤ length answer.old }
        ensures { (result ≡ length (numbers self)) × (answer.new ≡ laid (numbers self) answer.old) };
}

impl Answer for Result<(), Refusal> {
    ghost numbers = { reading_numbers };

    // What reading a placement answers.
    #[tactic(auto, unfolding(meaning::specs::Answers::reading_numbers))]
    fn lay(self, answer: &mut [u64]) -> usize {
        match self {
            Ok(()) => lay(answer, &[0]),
            Err(refusal) => lay_refusal(answer, 1, refusal),
        }
    }
}

impl Answer for Result<usize, Refusal> {
    ghost numbers = { writing_numbers };

    // What writing answers.
    #[tactic(auto, unfolding(meaning::specs::Answers::writing_numbers))]
    fn lay(self, answer: &mut [u64]) -> usize {
        match self {
            Ok(k) => lay(answer, &[0, k as u64]),
            Err(r) => lay_refusal(answer, 1, r),
        }
    }
}

impl Answer for Result<Receipt, Refusal> {
    ghost numbers = { receipt_numbers };

    // Whether a trainee's list was received.
    #[tactic(auto, unfolding(meaning::specs::Answers::receipt_numbers))]
    fn lay(self, answer: &mut [u64]) -> usize {
        match self {
            Ok(Receipt::Received) => lay(answer, &[0]),
            Ok(Receipt::NotReceived) => lay(answer, &[1]),
            Ok(Receipt::OutOfRange) => lay(answer, &[2]),
            Err(r) => lay_refusal(answer, 3, r),
        }
    }
}

impl Answer for Result<Tested, Refusal> {
    ghost numbers = { tested_numbers };

    // What the stability test answers.
    #[tactic(auto, unfolding(meaning::specs::Answers::tested_numbers))]
    fn lay(self, answer: &mut [u64]) -> usize {
        match self {
            Ok(Tested::Stable) => lay(answer, &[0]),
            Ok(Tested::NotMutual(i)) => lay(answer, &[1, u64::from(i)]),
            Ok(Tested::OverPosts(j)) => lay(answer, &[2, u64::from(j)]),
            Ok(Tested::Blocking(i, j)) => lay(answer, &[3, u64::from(i), u64::from(j)]),
            Err(r) => lay_refusal(answer, 4, r),
        }
    }
}

impl Answer for Result<Ruling, Refusal> {
    ghost numbers = { ruled_numbers };

    // What solving answers: n, the number of strikes, and the ending.
    #[tactic(auto, unfolding(meaning::specs::Answers::ruled_numbers, meaning::specs::Answers::ruling_numbers, meaning::specs::Answers::ending_numbers))]
    fn lay(self, answer: &mut [u64]) -> usize {
        match self {
            Ok(ruling) => {
                let n = u64::from(ruling.trainees);
                let s = u64::from(ruling.strikes);
                match ruling.ending {
                    Ending::Placed => lay(answer, &[0, n, s, 0]),
                    Ending::NoneHeld(i, j) => lay(
                        answer,
                        &[0, n, s, 1, u64::from(i), u64::from(j)],
                    ),
                    Ending::NoneRoom(i, j) => lay(
                        answer,
                        &[0, n, s, 2, u64::from(i), u64::from(j)],
                    ),
                }
            }
            Err(r) => lay_refusal(answer, 1, r),
        }
    }
}

// Some numbers over the front of an answer's cells: how many they are.
#[tactic(auto, unfolding(tables::specs::Cells::laid))]
fn lay(answer: &mut [u64], numbers: &[u64]) -> usize
    requires { length numbers.now ≤ length answer.old }
    ensures { (result ≡ length numbers.now) × (answer.new ≡ laid numbers.now answer.old) }
{
    answer[..numbers.len()].copy_from_slice(numbers);
    numbers.len()
}

// A refusal, which is the case of this number of its answer.
#[tactic(auto, unfolding(meaning::specs::Answers::refusal_numbers))]
fn lay_refusal(answer: &mut [u64], case: u64, r: Refusal) -> usize
    requires { 8 ≤ length answer.old }
    ensures { (result ≡ length (case ∷ refusal_numbers r)) × (answer.new ≡ laid (case ∷ refusal_numbers r) answer.old) }
{
    lay(answer, &[case, r.fault as u64, u64::from(r.line)])
}

// Reads a placement text into the lent tables.
pub fn frostcrumb_read_placement(
    text: &[u8],
    heads: &mut [u16],
    entries: &mut [u16],
    orders: &mut [u16],
    answer: &mut [u64],
) -> usize
    ensures { call result answer.new (heads.new ∷ entries.new ∷ orders.new ∷ []) ≡ read_call text.now heads.old entries.old orders.old answer.old }
{
    if answer.len() < 8 {
        return 0;
    }
    let r = frostcrumb::read_placement(text, heads, entries, orders);
    r.lay(answer)
}

// Writes the text of the placement that the lent tables hold over the front of the output.
pub fn frostcrumb_write_placement(
    heads: &[u16],
    entries: &[u16],
    orders: &[u16],
    out: &mut [u8],
    answer: &mut [u64],
) -> usize
    ensures { call result answer.new (out.new ∷ []) ≡ write_call heads.now entries.now orders.now out.old answer.old }
{
    if answer.len() < 8 {
        return 0;
    }
    let r = frostcrumb::write_placement(heads, entries, orders, out);
    r.lay(answer)
}

// Whether a trainee's list was received.
pub fn frostcrumb_trainee_receipt(
    heads: &[u16],
    entries: &[u16],
    orders: &[u16],
    trainee: usize,
    answer: &mut [u64],
) -> usize
    ensures { call result answer.new [] ≡ receipt_call heads.now entries.now orders.now trainee answer.old }
{
    if answer.len() < 8 {
        return 0;
    }
    let r = frostcrumb::trainee_receipt(heads, entries, orders, trainee);
    r.lay(answer)
}

// Tests the stability of a table of n trainees.
pub fn frostcrumb_test_table(
    heads: &[u16],
    entries: &[u16],
    orders: &[u16],
    n: u16,
    table: &[u16],
    answer: &mut [u64],
) -> usize
    ensures { call result answer.new [] ≡ test_call heads.now entries.now orders.now n table.now answer.old }
{
    if answer.len() < 8 {
        return 0;
    }
    let r = frostcrumb::test_table(heads, entries, orders, n, table);
    r.lay(answer)
}

// Solves a placement: the ruling's table over the front of the table, and its strikes over the front of the cells, four to a strike.
pub fn frostcrumb_solve(
    heads: &[u16],
    entries: &[u16],
    orders: &[u16],
    table: &mut [u16],
    cells: &mut [u16],
    answer: &mut [u64],
) -> usize
    ensures { solve_call heads.now entries.now orders.now table.old cells.old answer.old ≡ some (call result answer.new (table.new ∷ cells.new ∷ [])) }
{
    if answer.len() < 8 {
        return 0;
    }
    let room = cells.len() / 4;
    let mut scratch = [0u16; 16384];
    let r = solver::solve_lent(heads, entries, orders, room, table, &mut scratch);
    let count = strikes::recorded_by(r);
    strikes::lay_strikes(&scratch, count, cells);
    r.lay(answer)
}
