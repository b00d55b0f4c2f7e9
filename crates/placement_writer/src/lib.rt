// Writing the placement that the lent tables hold. Each function puts its bytes where the pen stands.
#![tactic(auto)]

ghost use Rattle.std.specs.Prelude.{◌≡◌, true, ℕ, ◌+◌, ◌*◌, ◌≤◌, ◌<◌, length, get_or, IfSome};
ghost use Rattle.std.proofs.Math.Option.{some};
ghost use Rattle.meaning.specs.Numbers.{In};
ghost use Rattle.meaning.specs.Placement.{Placement};
ghost use Rattle.fields.specs.Leaves.{Put};
ghost use Rattle.fields.specs.Pen.{Room, Wrote};
ghost use Rattle.fields.specs.Writer.{write_lines};
ghost use Rattle.tables.specs.Cells.{trainee_start, depot_start, order_start};
ghost use Rattle.tables.specs.Decode.{placement_of};
ghost use Rattle.tables.specs.Walk.{is_some};
ghost use Rattle.placement_text.specs.Words.{letter};
ghost use Rattle.placement_text.specs.Writer.{write_received, write_list, write_trainee, write_depot, write_order, write_orders, write_head, text_of};
ghost use Rattle.placement_writer.specs.Held.{number_in, received_in, list_in, depot_in, kind_given, order_in, run, ListRoom};
ghost use Rattle.placement_writer.specs.Writing.{writes, writing_of};

use fields::pen::{Lines, Pen};
use meaning::{Fault, Refusal};
use tables::{Held, Kind, Lent};

// A number, or `?` where none was received.
fn put_received(v: Option<usize>, pen: &mut Pen)
    requires { IfSome v (λ w. w < 65536) × Room pen.old (write_received (received_in v)) }
    ensures { Wrote pen.old pen.new (write_received (received_in v)) }
{
    match v {
        Some(w) => pen.number(w as u16),
        None => pen.word(b"\t?"),
    }
}

// The list whose cells stand at `cells`: its length and its entries, or `?`.
fn put_list(heads: &[u16], entries: &[u16], cells: usize, pen: &mut Pen)
    requires { ListRoom heads.now entries.now cells × Room pen.old (write_list (list_in heads.now entries.now cells)) }
    ensures { Wrote pen.old pen.new (write_list (list_in heads.now entries.now cells)) }
{
    let length = tables::length_of(heads, cells);
    put_received(length, pen);
    if let Some(_) = length {
        let list = tables::list_at(heads, entries, cells);
        pen.numbers(list);
    }
}

// The trainees, by their numbers.
#[derive(Clone, Copy)]
struct TraineeLines<'a> {
    heads: &'a [u16],
    entries: &'a [u16],
}

impl Lines for TraineeLines<'_> {
    ghost line = { λ s i. write_trainee i (list_in s.heads.now s.entries.now (trainee_start i)) };

    ghost there = { λ s i. (i ≤ 256) × ListRoom s.heads.now s.entries.now (trainee_start i) };

    #[tactic(auto, unfolding(placement_text::specs::Writer::write_trainee))]
    fn put(&self, i: usize, pen: &mut Pen) {
        pen.word(b"T");
        pen.number(i as u16);
        put_list(self.heads, self.entries, tables::trainee_at(i), pen);
        pen.byte(b'\n');
    }
}

// The posts of the depot whose cells stand at `cells`, or `?`.
fn put_posts(heads: &[u16], cells: usize, pen: &mut Pen)
    requires { (cells + 2 < length heads.now) × Room pen.old (write_received (number_in (get_or heads.now (cells + 2) 0))) }
    ensures { Wrote pen.old pen.new (write_received (number_in (get_or heads.now (cells + 2) 0))) }
{
    put_received(tables::posts_of(heads, cells), pen);
}

// The depots, by their numbers; their cells stand behind those of the trainees.
#[derive(Clone, Copy)]
struct DepotLines<'a> {
    heads: &'a [u16],
    entries: &'a [u16],
    trainees: usize,
    ghost fits: { (i : ℕ) → get_or heads.now i 0 < 65536 },
}

impl Lines for DepotLines<'_> {
    ghost line = { λ s j. write_depot j (depot_in s.heads.now s.entries.now (depot_start s.trainees j)) };

    ghost there = { λ s j. (j ≤ 64) × (s.trainees ≤ 256) × (depot_start s.trainees j + 2 < length s.heads.now) × ListRoom s.heads.now s.entries.now (depot_start s.trainees j) };

    #[tactic(auto, unfolding(placement_text::specs::Writer::write_depot, crate::specs::Held::depot_in))]
    fn put(&self, j: usize, pen: &mut Pen) {
        let cells = tables::depot_at(self.trainees, j);
        pen.word(b"D");
        pen.number(j as u16);
        put_posts(self.heads, cells, pen);
        put_list(self.heads, self.entries, cells, pen);
        pen.byte(b'\n');
    }
}

// The word of an order of a kind.
#[tactic(auto, unfolding(placement_text::specs::Words::letter))]
fn kind_word(kind: Option<Kind>) -> &'static [u8]
    ensures { result.now ≡ letter (kind_given kind) }
{
    match kind {
        Some(Kind::Held) => b"F",
        Some(Kind::Barred) | None => b"X",
    }
}

// The held and barred pairs, by how many stand before.
#[derive(Clone, Copy)]
struct OrderLines<'a> {
    orders: &'a [u16],
    ghost fits: { (i : ℕ) → get_or orders.now i 0 < 65536 },
}

impl Lines for OrderLines<'_> {
    ghost line = { λ s k. write_order (order_in s.orders.now (order_start k)) };

    ghost there = { λ s k. (k ≤ 1024) × (order_start k + 2 < length s.orders.now) };

    fn put(&self, k: usize, pen: &mut Pen) {
        let cells = tables::order_at(k);
        let word = kind_word(tables::kind_at(self.orders, cells));
        let trainee = tables::order_trainee(self.orders, cells) as u16;
        let depot = tables::order_depot(self.orders, cells) as u16;
        pen.line(word, &[trainee, depot]);
    }
}

// The whole text of the placement that the tables hold.
fn put_text(heads: &[u16], entries: &[u16], orders: &[u16], out: &mut [u8]) -> usize
    requires { (is_some (placement_of heads.now entries.now orders.now) ≡ true) × (65536 ≤ length out.old) }
    ensures { (p : Placement) → placement_of heads.now entries.now orders.now ≡ some p → Put out.old out.new 0 (text_of p) result }
{
    let n = tables::trainees_of(heads);
    let m = tables::depots_of(heads);
    let count = tables::orders_of(orders);
    let mut pen = Pen { out, at: 0 };
    pen.line(b"placement", &[1, n as u16, m as u16]);
    pen.lines(&TraineeLines { heads, entries }, 1, n);
    let depots = DepotLines {
        heads,
        entries,
        trainees: n,
    };
    pen.lines(&depots, 1, m);
    pen.lines(&OrderLines { orders }, 0, count);
    pen.word(b"end\n");
    pen.at
}

// Writes the placement that the tables hold: its text over the front of the output, and how long it is; or refused, with every lent cell as it was
// (`refused-unchanged`, `short-means`, `unread-means`, `unread-when`, `read-then-written`, `written-then-read`, proofs/Promises).
pub fn write_placement(
    heads: &[u16],
    entries: &[u16],
    orders: &[u16],
    out: &mut [u8],
) -> Result<usize, Refusal>
    ensures { writes result out.new ≡ writing_of heads.now entries.now orders.now out.old }
{
    let lent = Lent::new(heads, entries, orders)?;
    if out.len() < 65536 {
        return Err(Refusal::from(Fault::ShortPart));
    }
    let held = Held::new(lent)?;
    Ok(put_text(held.heads, held.entries, held.orders, out))
}
