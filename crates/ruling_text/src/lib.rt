// The ruling text on plain cells: four cells to a strike (trainee, depot, the reason's number, witness), one cell of the table to a trainee.
#![tactic(auto)]

ghost use Rattle.std.specs.Prelude.{get_or, ◌<◌, ◌≡◌, ◌∷◌, [], ◌+◌, ◌*◌, ◌≤◌, length, take, drop};
ghost use Rattle.std.proofs.lemmas.List.Edits.{sets};
ghost use Rattle.fields.specs.Leaves.{StepRead, LinesRead, Put};
ghost use Rattle.fields.specs.Pen.{Room, Wrote};
ghost use Rattle.fields.specs.Reader.{lines};
ghost use Rattle.fields.specs.Writer.{write_line};
ghost use Rattle.ruling_text.specs.Words.{word_S};
ghost use Rattle.rulings.specs.Legal.{LegalOutcome};
ghost use Rattle.meaning.specs.Answers.{strike_numbers};
ghost use Rattle.meaning.specs.Solver.{ending_of};
ghost use Rattle.ruling_text.specs.Reader.{pair, low_witness, high_witness, reason, strike_fields, strike_line, cell_fields, cell_line, weightless, none_of, none_fields, outcome, end_fields, finish, conclusion, body, sizes, head_fields, read_ruling};
ghost use Rattle.ruling_text.specs.Code.{pair_numbers, reason_numbers, cell_numbers, head_of_sizes, NumbersRead, HeadRead, RowsRead, NoneRead, ConclusionRead, placed_or, BodyRead, TextRead, answered, answered_by};
ghost use Rattle.ruling_text.specs.Writer.{write_cell, write_outcome, ruling_text};
ghost use Rattle.ruling_text.specs.Cells.{outcome_in, ruling_in, Held};

use fields::pen::{Lines, Pen};
use fields::{Cursor, Misread, Wrong};
use meaning::{Ending, Fault, Ruling};

pub mod sizes;

pub use sizes::Sizes;

// A trainee of 1 to n in the field k, and a depot in the next.
#[tactic(auto, unfolding(crate::specs::Reader::pair))]
fn pair_at(text: &mut Cursor, k: usize, n: u16) -> Result<[u16; 2], Wrong>
    requires { k ≤ 3 }
    ensures { NumbersRead pair_numbers (pair k n text.old.rest.now) text.new.rest.now result }
{
    let trainee = text.number(k, 1, n)?;
    let depot = text.number(k + 1, 1, 64)?;
    Ok([trainee, depot])
}

// The lowest witness that a reason can have, by its number: text and cells both have the number (`strike_numbers`), so that an enum between would be no plainer.
#[tactic(auto, unfolding(crate::specs::Reader::low_witness))]
fn low_witness(k: u16) -> u16
    ensures { result ≡ low_witness k }
{
    match k {
        2 | 4 => 1,
        _ => 0,
    }
}

// The highest one, where there are n trainees.
#[tactic(auto, unfolding(crate::specs::Reader::high_witness))]
fn high_witness(n: u16, k: u16) -> u16
    ensures { result ≡ high_witness n k }
{
    match k {
        2 => 64,
        4 => n,
        _ => 0,
    }
}

// The reason's number and its witness, in the fields 4 and 5 of a strike.
#[tactic(auto, unfolding(crate::specs::Reader::reason))]
fn reason_at(text: &mut Cursor, n: u16) -> Result<[u16; 2], Wrong>
    ensures { NumbersRead reason_numbers (reason n text.old.rest.now) text.new.rest.now result }
{
    let number = text.number(4, 1, 4)?;
    let witness = text.number(5, low_witness(number), high_witness(n, number))?;
    Ok([number, witness])
}

// A strike's line: its four cells.
#[tactic(auto, unfolding(crate::specs::Reader::strike_fields))]
fn strike_at(text: &mut Cursor, n: u16) -> Result<[u16; 4], Wrong>
    ensures { NumbersRead strike_numbers (strike_fields n text.old.rest.now) text.new.rest.now result }
{
    text.keyword(b"S")?;
    let [i, j] = pair_at(text, 2, n)?;
    let [k, w] = reason_at(text, n)?;
    text.line_end(6)?;
    Ok([i, j, k, w])
}

// The line of trainee i in a table.
#[tactic(auto, unfolding(crate::specs::Reader::cell_fields, fields::specs::Reader::numbered))]
fn cell_at(text: &mut Cursor, i: u16) -> Result<u16, Wrong>
    ensures { StepRead (cell_fields i text.old.rest.now) text.new.rest.now result }
{
    text.numbered(b"A", i)?;
    let depot = text.number(3, 0, 64)?;
    text.line_end(4)?;
    Ok(depot)
}

// The lines of the strikes, into the front of `cells`; strike 1 stands on line 2.
fn strikes_at(text: &mut Cursor, sizes: Sizes, cells: &mut [u16]) -> Result<(), Misread>
    requires { 4 * sizes.strikes ≤ length cells.old }
    ensures { RowsRead strike_numbers (lines (strike_line sizes.trainees) weightless sizes.strikes 1 0 [] text.old.rest.now) cells.old cells.new text.new.rest.now result }
{
    for c in 0..sizes.strikes as usize {
        let strike = strike_at(text, sizes.trainees).map_err(|x| x.on(c + 2))?;
        let at = 4 * c;
        cells[at..at + 4].copy_from_slice(&strike);
    }
    Ok(())
}

// The lines of the trainees after the strikes, into the front of `table`. The two loops share no step but the `?`, so that one function over both,
// with a closure to read a line and another to store it, would be no plainer.
fn table_at(text: &mut Cursor, sizes: Sizes, table: &mut [u16]) -> Result<(), Misread>
    requires { sizes.trainees ≤ length table.old }
    ensures { RowsRead cell_numbers (lines (cell_line sizes.strikes) weightless sizes.trainees 1 0 [] text.old.rest.now) table.old table.new text.new.rest.now result }
{
    let count = sizes.strikes as usize;
    for c in 0..sizes.trainees as usize {
        let depot = cell_at(text, (c + 1) as u16).map_err(|x| x.on(count + c + 2))?;
        table[c] = depot;
    }
    Ok(())
}

// The ending whose number in the text is k, 1 or 2: the enum for these numbers is `Ending` itself.
#[tactic(auto, unfolding(crate::specs::Reader::none_of, meaning::specs::Solver::ending_of))]
fn none_of(k: u16, i: u16, j: u16) -> Ending
    ensures { ending_of (none_of k (record { trainee = i; depot = j })) ≡ result }
{
    if k == 1 {
        Ending::NoneHeld(i, j)
    } else {
        Ending::NoneRoom(i, j)
    }
}

// Kind, trainee and depot of the line that says why there is no table, after its word.
#[tactic(auto, unfolding(crate::specs::Reader::none_fields))]
fn none_at(text: &mut Cursor, n: u16) -> Result<Ending, Wrong>
    ensures { NoneRead (none_fields n text.old.rest.now) text.new.rest.now result }
{
    let kind = text.number(2, 1, 2)?;
    let [i, j] = pair_at(text, 3, n)?;
    text.line_end(5)?;
    Ok(none_of(kind, i, j))
}

// The table, or why there is none, after the strikes.
fn outcome_at(text: &mut Cursor, sizes: Sizes, table: &mut [u16]) -> Result<Ending, Misread>
    requires { sizes.trainees ≤ length table.old }
    ensures { ConclusionRead (outcome sizes.trainees sizes.strikes text.old.rest.now) table.old table.new text.new.rest.now result }
{
    let count = sizes.strikes as usize;
    match text.keyword(b"N") {
        Ok(()) => none_at(text, sizes.trainees).map_err(|x| x.on(count + 2)),
        Err(_) => {
            table_at(text, sizes, table)?;
            Ok(Ending::Placed)
        }
    }
}

// The end line.
#[tactic(auto, unfolding(crate::specs::Reader::end_fields))]
fn end_line_at(text: &mut Cursor) -> Result<(), Wrong>
    ensures { StepRead (end_fields text.old.rest.now) text.new.rest.now result }
{
    text.keyword(b"end")?;
    text.line_end(2)
}

// The end line, l, and then nothing.
fn finish_at(text: &mut Cursor, l: usize) -> Result<(), Misread>
    requires { l ≤ 5000 }
    ensures { LinesRead (finish l text.old.rest.now) [] result }
{
    end_line_at(text).map_err(|x| x.on(l))?;
    if !text.rest.is_empty() {
        return Err(Misread {
            fault: Fault::WrongForm,
            line: l + 1,
            field: 1,
        });
    }
    Ok(())
}

// The n of a table, or another number where there is none: an outcome has a line for each trainee or one line, and a cell for each or none.
fn placed_or(none: u16, n: u16, ending: Ending) -> u16
    ensures { result ≡ placed_or none n ending }
{
    match ending {
        Ending::Placed => n,
        Ending::NoneHeld(_, _) | Ending::NoneRoom(_, _) => none,
    }
}

// All that follows the strikes.
#[tactic(auto, unfolding(crate::specs::Reader::conclusion))]
fn end_at(text: &mut Cursor, sizes: Sizes, table: &mut [u16]) -> Result<Ending, Misread>
    requires { sizes.trainees ≤ length table.old }
    ensures { ConclusionRead (conclusion sizes.trainees sizes.strikes text.old.rest.now) table.old table.new [] result }
{
    let ending = outcome_at(text, sizes, table)?;
    let l = sizes.strikes + placed_or(1, sizes.trainees, ending) + 2;
    finish_at(text, l as usize)?;
    Ok(ending)
}

// All that follows the first line.
#[tactic(auto, unfolding(crate::specs::Reader::body))]
fn body_at(
    text: &mut Cursor,
    sizes: Sizes,
    table: &mut [u16],
    cells: &mut [u16],
) -> Result<Ruling, Misread>
    requires { (sizes.trainees ≤ length table.old) × (4 * sizes.strikes ≤ length cells.old) }
    ensures { BodyRead (body (head_of_sizes sizes) text.old.rest.now) table.old table.new cells.old cells.new result }
{
    strikes_at(text, sizes, cells)?;
    let ending = end_at(text, sizes, table)?;
    Ok(Ruling {
        trainees: sizes.trainees,
        strikes: sizes.strikes,
        ending,
    })
}

// The number of trainees and the number of strikes, in the fields 3 and 4 of the first line, and the line's end; like the placement's, but for limits and names.
#[tactic(auto, unfolding(crate::specs::Reader::sizes))]
fn sizes_at(text: &mut Cursor) -> Result<Sizes, Wrong>
    ensures { HeadRead (sizes text.old.rest.now) text.new.rest.now result }
{
    let trainees = text.number(3, 0, 256)?;
    let strikes = text.number(4, 0, 4096)?;
    text.line_end(5)?;
    Ok(Sizes { trainees, strikes })
}

// The first line.
#[tactic(auto, unfolding(crate::specs::Reader::head_fields))]
fn head_at(text: &mut Cursor) -> Result<Sizes, Wrong>
    ensures { HeadRead (head_fields text.old.rest.now) text.new.rest.now result }
{
    text.keyword(b"ruling")?;
    text.running(2, 1)?;
    sizes_at(text)
}

// A ruling text, into the fronts of `table` and `cells`; after a refusal these hold anything.
pub fn get_ruling(s: &[u8], table: &mut [u16], cells: &mut [u16]) -> Result<Ruling, Misread>
    requires { (256 ≤ length table.old) × (16384 ≤ length cells.old) }
    ensures { TextRead s.now table.old table.new cells.old cells.new result }
{
    if 65536 < s.len() {
        return Err(Misread {
            fault: Fault::LongText,
            line: 0,
            field: 0,
        });
    }
    let mut text = Cursor { rest: s };
    let sizes = head_at(&mut text).map_err(|x| x.on(1))?;
    body_at(&mut text, sizes, table, cells)
}

// The first n cells of `from` into `to`.
fn copy(to: &mut [u16], from: &[u16], n: usize)
    requires { (n ≤ length to.old) × (n ≤ length from.now) }
    ensures { to.new ≡ sets to.old 0 (take n from.now) }
{
    to[..n].copy_from_slice(&from[..n]);
}

// A ruling text, into the fronts of the lent tables; a refusal changes no cell.
pub fn read_cells(s: &[u8], table: &mut [u16], cells: &mut [u16]) -> Result<Ruling, Misread>
    requires { (256 ≤ length table.old) × (16384 ≤ length cells.old) }
    ensures { answered result table.new cells.new ≡ answered_by (read_ruling s.now) table.old cells.old }
{
    let mut held = [0u16; 256];
    let mut struck = [0u16; 16384];
    let ruling = get_ruling(s, &mut held, &mut struck)?;
    let used = placed_or(0, ruling.trainees, ruling.ending);
    copy(table, &held, used as usize);
    copy(cells, &struck, 4 * ruling.strikes as usize);
    Ok(ruling)
}

// Strikes in cells, four to each.
#[derive(Clone, Copy)]
struct StrikeLines<'a> {
    cells: &'a [u16],
}

impl Lines for StrikeLines<'_> {
    ghost line = { λ s i. write_line word_S (take 4 (drop (4 * i) s.cells.now)) };

    ghost there = { λ s i. 4 * i + 4 ≤ length s.cells.now };

    fn put(&self, i: usize, pen: &mut Pen) {
        let from = 4 * i;
        pen.line(b"S", &self.cells[from..from + 4]);
    }
}

// A table: the depot of each trainee.
#[derive(Clone, Copy)]
struct CellLines<'a> {
    table: &'a [u16],
}

impl Lines for CellLines<'_> {
    ghost line = { λ s i. write_cell (i + 1) (get_or s.table.now i 0) };

    ghost there = { λ s i. (i < 256) × (i < length s.table.now) };

    #[tactic(auto, unfolding(crate::specs::Writer::write_cell))]
    fn put(&self, i: usize, pen: &mut Pen) {
        pen.line(b"A", &[(i + 1) as u16, self.table[i]]);
    }
}

// The table's lines, or the line that says why there is none.
fn put_outcome(n: usize, ending: Ending, table: &[u16], pen: &mut Pen)
    requires { (n ≤ 256) × LegalOutcome n (outcome_in n ending table.now) × Room pen.old (write_outcome (outcome_in n ending table.now)) }
    ensures { Wrote pen.old pen.new (write_outcome (outcome_in n ending table.now)) }
{
    match ending {
        Ending::Placed => pen.lines(&CellLines { table }, 0, n),
        Ending::NoneHeld(i, j) => pen.line(b"N", &[1, i, j]),
        Ending::NoneRoom(i, j) => pen.line(b"N", &[2, i, j]),
    }
}

// The text of a ruling, and how many bytes it has.
pub fn put_ruling(ruling: Ruling, table: &[u16], cells: &[u16], out: &mut [u8]) -> usize
    requires { Held ruling.trainees ruling.strikes ruling.ending table.now cells.now × (65536 ≤ length out.old) }
    ensures { Put out.old out.new 0 (ruling_text (ruling_in ruling.trainees ruling.strikes ruling.ending table.now cells.now)) result }
{
    let mut pen = Pen { out, at: 0 };
    pen.line(b"ruling", &[1, ruling.trainees, ruling.strikes]);
    pen.lines(&StrikeLines { cells }, 0, ruling.strikes as usize);
    put_outcome(ruling.trainees as usize, ruling.ending, table, &mut pen);
    pen.word(b"end\n");
    pen.at
}
