// Frostcrumb's public functions: each answers whatever it is lent, and asks nothing.
#![tactic(auto)]

ghost use Rattle.std.specs.Prelude.{◌≡◌};
ghost use Rattle.std.proofs.Math.Option.{some};
ghost use Rattle.tables.specs.Answers.{trainee_receipt, trainee_list};
ghost use Rattle.placement_reader.specs.Reading.{reads, reading_of};
ghost use Rattle.placement_writer.specs.Writing.{writes, writing_of};
ghost use Rattle.stability.specs.Test.{test_of};
ghost use Rattle.stability.specs.Keeps.{KeepsUnlessRefused};
ghost use Rattle.frostcrumb.specs.Solve.{solving, left};

use meaning::{Receipt, Refusal, Ruling, Strike, Tested};

// Reads a placement text into the lent tables, or refuses it by number and line and changes nothing.
pub fn read_placement(
    text: &[u8],
    heads: &mut [u16],
    entries: &mut [u16],
    orders: &mut [u16],
) -> Result<(), Refusal>
    ensures { reads result heads.new entries.new orders.new ≡ reading_of text.now heads.old entries.old orders.old }
{
    placement_reader::read_placement(text, heads, entries, orders)
}

// Writes the text of the placement that the lent tables hold over the front of the output: the number of bytes, or refusal 1 or 8.
pub fn write_placement(
    heads: &[u16],
    entries: &[u16],
    orders: &[u16],
    out: &mut [u8],
) -> Result<usize, Refusal>
    ensures { writes result out.new ≡ writing_of heads.now entries.now orders.now out.old }
{
    placement_writer::write_placement(heads, entries, orders, out)
}

// Whether trainee i's list was received: tells an empty list from one that was not received.
pub fn trainee_receipt(
    heads: &[u16],
    entries: &[u16],
    orders: &[u16],
    i: usize,
) -> Result<Receipt, Refusal>
    ensures { result ≡ trainee_receipt heads.now entries.now orders.now i }
{
    tables::trainee_receipt(heads, entries, orders, i)
}

// Trainee i's list, as the part of the lent entries that holds it; the empty part where the receipt is not that it was received.
pub fn trainee_list<'a>(heads: &[u16], entries: &'a [u16], orders: &[u16], i: usize) -> &'a [u16]
    ensures { result.now ≡ trainee_list heads.now entries.now orders.now i }
{
    tables::trainee_list(heads, entries, orders, i)
}

// Tests the stability of a table of n trainees: the first wrong pair, depot over its posts or blocking pair, or stable; or refusal 1, 8 or 7.
pub fn test_table(
    heads: &[u16],
    entries: &[u16],
    orders: &[u16],
    n: u16,
    table: &[u16],
) -> Result<Tested, Refusal>
    ensures answer { result ≡ test_of heads.now entries.now orders.now n table.now }
    ensures truth { KeepsUnlessRefused heads.now entries.now orders.now n table.now result }
{
    stability::test_table(heads, entries, orders, n, table)
}

// Solves a placement: the ruling, its table and its record of strikes, or refusal 1, 8 or 7, which changes nothing.
pub fn solve(
    heads: &[u16],
    entries: &[u16],
    orders: &[u16],
    table: &mut [u16],
    log: &mut [Strike],
) -> Result<Ruling, Refusal>
    ensures { solving heads.now entries.now orders.now table.old log.old ≡ some (left result table.new log.new) }
{
    let mut cells = [0; 16384];
    let ruled = solver::solve_lent(heads, entries, orders, log.len(), table, &mut cells);
    strikes::fill_record(log, &cells, strikes::recorded_by(ruled));
    ruled
}
