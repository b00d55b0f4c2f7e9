// The reader of the placement text, line by line: each function reads from the front of what is left of the text and fills cells of scratch tables.
// A field is read from its tab on. A refusal has its field; the line is added where lines are counted.
#![tactic(auto)]

ghost use Rattle.std.specs.Prelude.{◌≡◌, [], ◌+◌, ◌*◌, ◌≤◌, length, OnErr};
ghost use Rattle.std.proofs.Math.Option.{some};
ghost use Rattle.meaning.specs.Placement.{size, depot_size};
ghost use Rattle.fields.specs.Reader.{lines};
ghost use Rattle.placement_text.specs.Reader.{received, entries, listed, list, trainee_fields, trainee_line, depot_fields, depot_line, orders, sizes, head_fields};
ghost use Rattle.placement_text.specs.Code.{ReceivedRead, EntriesRead, CountedRead, ListedRead, TraineeRead, DepotRead, DepotLineRead, TraineesRead, DepotsRead, OpeningRead, PairRead, FinishRead, OrderRead, PairsRead, SizesRead, HeadRead};

use fields::{Cursor, Misread, Wrong};
use meaning::Fault;
use tables::Kind;

pub mod room;

pub use room::{Room, Sizes};

// What the line of a depot gives beside its entries: its posts and the length of its list, where they were received.
#[derive(Clone, Copy)]
pub struct DepotRow {
    pub posts: Option<u16>,
    pub list: Option<u16>,
}

// What a line below the depots is, by its word: both cases are words of the text, so that an Option would be no plainer.
#[derive(Clone, Copy)]
pub enum Opening {
    Order(Kind),
    End,
}

// A held or barred pair.
#[derive(Clone, Copy)]
pub struct Pair {
    pub kind: Kind,
    pub trainee: u16,
    pub depot: u16,
}

// A number of 0 to hi in the field k, or `?`.
#[tactic(auto, unfolding(crate::specs::Reader::received, crate::specs::Reader::or_missing, fields::specs::Reader::formed, fields::specs::Reader::unless))]
fn received(text: &mut Cursor, k: usize, hi: u16) -> Result<Option<u16>, Wrong>
    ensures { ReceivedRead (received k hi text.old.rest.now) text.new.rest.now result }
{
    let w = text.field(k)?;
    if w == b"?".as_slice() {
        return Ok(None);
    }
    let v = fields::number_in(w).ok_or(Wrong {
        fault: Fault::WrongForm,
        field: k,
    })?;
    if (hi as u32) < v {
        return Err(Wrong {
            fault: Fault::OutOfRange,
            field: k,
        });
    }
    Ok(Some(v as u16))
}

// `count` entries from the field k on, into the cells of t from `start` on; `seen` marks those of this list. Compiled apart, so that the loop keeps what it
// reads in registers.
#[inline(never)]
fn entries(
    text: &mut Cursor,
    k: usize,
    count: usize,
    hi: u16,
    t: &mut [u16],
    start: usize,
) -> Result<(), Wrong>
    requires { (start + count ≤ length t.old) × (k ≤ 5) × (hi ≤ 256) }
    ensures { EntriesRead (entries count k hi [] text.old.rest.now) start t.old t.new text.new.rest.now result }
{
    let mut seen = [false; 257];
    for c in 0..count {
        let e = text.number(k + c, 1, hi)?;
        if seen[e as usize] {
            return Err(Wrong {
                fault: Fault::NamedTwice,
                field: k + c,
            });
        }
        seen[e as usize] = true;
        t[start + c] = e;
    }
    Ok(())
}

// After the length of a list, `count` in the field k: the entries and the end of the line.
#[tactic(auto, unfolding(crate::specs::Reader::listed, fields::specs::Reader::unless))]
fn counted(
    text: &mut Cursor,
    k: usize,
    count: u16,
    hi: u16,
    room: Room,
    t: &mut [u16],
) -> Result<(), Wrong>
    requires { (k ≤ 4) × (hi ≤ 256) × (8192 ≤ length t.old) }
    ensures { CountedRead (listed k hi room.total (some count) text.old.rest.now) (room.base + room.total) count t.old t.new text.new.rest.now result }
{
    let size = count as usize;
    if 4096 < room.total + size {
        return Err(Wrong {
            fault: Fault::TooMany,
            field: k,
        });
    }
    entries(text, k + 1, size, hi, t, room.start())?;
    text.line_end(k + 1 + size)
}

// A list: its length in the field k, where it was received, and its entries.
#[tactic(auto, unfolding(crate::specs::Reader::list, crate::specs::Reader::listed))]
fn list(
    text: &mut Cursor,
    k: usize,
    hi: u16,
    room: Room,
    t: &mut [u16],
) -> Result<Option<u16>, Wrong>
    requires { (k ≤ 4) × (hi ≤ 256) × (8192 ≤ length t.old) }
    ensures { ListedRead (list k hi room.total text.old.rest.now) (room.base + room.total) t.old t.new text.new.rest.now result }
{
    let Some(count) = received(text, k, hi)? else {
        text.line_end(k + 1)?;
        return Ok(None);
    };
    counted(text, k, count, hi, room, t)?;
    Ok(Some(count))
}

// The fields of trainee i.
#[tactic(auto, unfolding(crate::specs::Reader::trainee_fields))]
fn trainee(
    text: &mut Cursor,
    sizes: Sizes,
    i: u16,
    room: Room,
    t: &mut [u16],
) -> Result<Option<u16>, Wrong>
    requires { 8192 ≤ length t.old }
    ensures { ListedRead (trainee_fields sizes.depots i room.total text.old.rest.now) (room.base + room.total) t.old t.new text.new.rest.now result }
{
    text.numbered(b"T", i)?;
    list(text, 3, sizes.depots, room, t)
}

// The line of trainee i.
#[tactic(auto, unfolding(crate::specs::Reader::trainee_line))]
fn trainee_line(
    text: &mut Cursor,
    sizes: Sizes,
    i: u16,
    room: Room,
    t: &mut [u16],
) -> Result<Option<u16>, Misread>
    requires { 8192 ≤ length t.old }
    ensures { TraineeRead (trainee_line sizes.depots i room.total text.old.rest.now) (room.base + room.total) t.old t.new text.new.rest.now result }
{
    trainee(text, sizes, i, room, t).map_err(|w| w.on(i as usize + 1))
}

// The fields of depot j.
#[tactic(auto, unfolding(crate::specs::Reader::depot_fields, crate::specs::Reader::depot_of))]
fn depot(
    text: &mut Cursor,
    sizes: Sizes,
    j: u16,
    room: Room,
    t: &mut [u16],
) -> Result<DepotRow, Wrong>
    requires { 8192 ≤ length t.old }
    ensures { DepotRead (depot_fields sizes.trainees j room.total text.old.rest.now) (room.base + room.total) t.old t.new text.new.rest.now result }
{
    text.numbered(b"D", j)?;
    let posts = received(text, 3, 256)?;
    let list = list(text, 4, sizes.trainees, room, t)?;
    Ok(DepotRow { posts, list })
}

// The line of depot j, which stands below those of the trainees.
#[tactic(auto, unfolding(crate::specs::Reader::depot_line))]
fn depot_line(
    text: &mut Cursor,
    sizes: Sizes,
    j: u16,
    room: Room,
    t: &mut [u16],
) -> Result<DepotRow, Misread>
    requires { 8192 ≤ length t.old }
    ensures { DepotLineRead (depot_line sizes.trainees j room.total text.old.rest.now) (room.base + room.total) t.old t.new text.new.rest.now result }
{
    depot(text, sizes, j, room, t).map_err(|w| w.on(sizes.trainees as usize + j as usize + 1))
}

// The lines of the trainees, and how many entries they have: their heads go to the cells of h behind the first three, and the entries to the front of t.
// Trainees and depots have a loop each: one for both needs a trait for what a line gives, its cells and its count, with their laws, and is no plainer.
pub fn trainee_lines(
    text: &mut Cursor,
    sizes: Sizes,
    h: &mut [u16],
    t: &mut [u16],
) -> Result<usize, Misread>
    requires { (3 + 2 * sizes.trainees ≤ length h.old) × (8192 ≤ length t.old) }
    ensures read { TraineesRead (lines (trainee_line sizes.depots) size sizes.trainees 1 0 [] text.old.rest.now) h.old h.new t.old t.new text.new.rest.now result }
    ensures kept { OnErr result (text.new.rest.now ≡ text.old.rest.now) }
{
    let mut after = *text;
    let mut total: usize = 0;
    for c in 0..sizes.trainees as usize {
        let list = trainee_line(&mut after, sizes, c as u16 + 1, Room { base: 0, total }, t)?;
        let q = 3 + 2 * c;
        h[q] = total as u16;
        h[q + 1] = list.unwrap_or(65535);
        total += list.unwrap_or(0) as usize;
    }
    *text = after;
    Ok(total)
}

// The lines of the depots, and how many entries they have: their heads go to the cells of h behind those of the trainees, and the entries to those
// of t from `base` on.
pub fn depot_lines(
    text: &mut Cursor,
    sizes: Sizes,
    base: usize,
    h: &mut [u16],
    t: &mut [u16],
) -> Result<usize, Misread>
    requires { (base ≤ 4096) × (3 + 2 * sizes.trainees + 3 * sizes.depots ≤ length h.old) × (8192 ≤ length t.old) }
    ensures read { DepotsRead (lines (depot_line sizes.trainees) depot_size sizes.depots 1 0 [] text.old.rest.now) sizes.trainees base h.old h.new t.old t.new text.new.rest.now result }
    ensures kept { OnErr result (text.new.rest.now ≡ text.old.rest.now) }
{
    let mut after = *text;
    let first = 3 + 2 * sizes.trainees as usize;
    let mut total: usize = 0;
    for c in 0..sizes.depots as usize {
        let row = depot_line(&mut after, sizes, c as u16 + 1, Room { base, total }, t)?;
        let q = first + 3 * c;
        h[q] = (base + total) as u16;
        h[q + 1] = row.list.unwrap_or(65535);
        h[q + 2] = row.posts.unwrap_or(65535);
        total += row.list.unwrap_or(0) as usize;
    }
    *text = after;
    Ok(total)
}

// The word of the line l below the depots, looked for once: an unknown one may be long.
fn opening_of(text: &mut Cursor, l: usize) -> Result<Opening, Misread>
    ensures { OpeningRead l text.old.rest.now text.new.rest.now result }
{
    let word = text.word();
    if word == b"F".as_slice() {
        return Ok(Opening::Order(Kind::Held));
    }
    if word == b"X".as_slice() {
        return Ok(Opening::Order(Kind::Barred));
    }
    if word == b"end".as_slice() {
        return Ok(Opening::End);
    }
    Err(Misread {
        fault: Fault::WrongForm,
        line: l,
        field: 1,
    })
}

// The fields of a held or barred pair, after its word.
#[tactic(auto, unfolding(crate::specs::Reader::order_fields))]
fn order_fields(text: &mut Cursor, sizes: Sizes, kind: Kind) -> Result<Pair, Wrong>
    ensures { PairRead sizes.trainees sizes.depots kind text.old.rest.now text.new.rest.now result }
{
    let trainee = text.number(2, 1, sizes.trainees)?;
    let depot = text.number(3, 1, sizes.depots)?;
    text.line_end(4)?;
    Ok(Pair {
        kind,
        trainee,
        depot,
    })
}

// The end line, l, after its word, and the end of the text.
#[tactic(auto, unfolding(crate::specs::Reader::finish, crate::specs::Reader::end_fields, fields::specs::Reader::at_end))]
fn finish(text: &mut Cursor, l: usize) -> Result<(), Misread>
    requires { l ≤ 65536 }
    ensures { FinishRead l text.old.rest.now result }
{
    text.line_end(2).map_err(|w| w.on(l))?;
    if !text.rest.is_empty() {
        return Err(Misread {
            fault: Fault::WrongForm,
            line: l + 1,
            field: 1,
        });
    }
    Ok(())
}

// The line l below the depots, after c pairs: one more pair, or none at the end of the text.
#[tactic(auto, unfolding(crate::specs::Reader::orders))]
fn order(text: &mut Cursor, sizes: Sizes, l: usize, c: usize) -> Result<Option<Pair>, Misread>
    requires { (l ≤ 65536) × (c ≤ 1024) }
    ensures { OrderRead sizes.trainees sizes.depots l c text.old.rest.now text.new.rest.now result }
{
    let Opening::Order(kind) = opening_of(text, l)? else {
        finish(text, l)?;
        return Ok(None);
    };
    if c == 1024 {
        return Err(Misread {
            fault: Fault::TooMany,
            line: l,
            field: 1,
        });
    }
    order_fields(text, sizes, kind)
        .map(Some)
        .map_err(|w| w.on(l))
}

// The lines below the depots, the first of them l, and how many pairs there are: these go to the front of o, behind their number.
pub fn order_lines(
    text: &mut Cursor,
    sizes: Sizes,
    l: usize,
    o: &mut [u16],
) -> Result<usize, Misread>
    requires { (l ≤ 1024) × (3073 ≤ length o.old) }
    ensures read { PairsRead (orders 1024 sizes.trainees sizes.depots l [] text.old.rest.now) o.old o.new result }
    ensures kept { OnErr result (text.new.rest.now ≡ text.old.rest.now) }
{
    let mut after = *text;
    let mut c: usize = 0;
    // How many pairs there are is known at the end line alone, so that a `for` would be no plainer.
    while let Some(pair) = order(&mut after, sizes, l + c, c)? {
        let q = 1 + 3 * c;
        o[q] = pair.kind as u16;
        o[q + 1] = pair.trainee;
        o[q + 2] = pair.depot;
        c += 1;
    }
    o[0] = c as u16;
    *text = after;
    Ok(c)
}

// The numbers of trainees and depots, and the end of the line. The ruling's first line has other limits and names, and each text's definition stands whole
// in its specs/Reader, so that one function for both would be no plainer.
#[tactic(auto, unfolding(crate::specs::Reader::sizes))]
fn sizes(text: &mut Cursor) -> Result<Sizes, Wrong>
    ensures { SizesRead text.old.rest.now text.new.rest.now result }
{
    let trainees = text.number(3, 0, 256)?;
    let depots = text.number(4, 0, 64)?;
    text.line_end(5)?;
    Ok(Sizes { trainees, depots })
}

// The first line of the text.
#[tactic(auto, unfolding(crate::specs::Reader::head_fields, crate::specs::Reader::edition))]
pub fn head(text: &mut Cursor) -> Result<Sizes, Wrong>
    ensures read { HeadRead text.old.rest.now text.new.rest.now result }
    ensures kept { OnErr result (text.new.rest.now ≡ text.old.rest.now) }
{
    let mut after = *text;
    after.keyword(b"placement")?;
    after.running(2, 1)?;
    let sizes = sizes(&mut after)?;
    *text = after;
    Ok(sizes)
}
