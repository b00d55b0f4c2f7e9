// A ruling in memory, on plain cells: whether its parts have their full sizes, and whether a reader could have filled them.
#![tactic(auto)]

ghost use Rattle.std.specs.Prelude.{◌≡◌, true, false, MatchResult};
ghost use Rattle.tables.specs.Answers.{Same};
ghost use Rattle.rulings.specs.Held.{roomy};

use meaning::Fault;
use tables::Lent;

// The lent tables beside a ruling's table and record, or number 1 where a part is too short or the record has no room for every strike.
pub fn lent_with_room<'a>(
    heads: &'a [u16],
    entries: &'a [u16],
    orders: &'a [u16],
    cells: usize,
    room: usize,
) -> Result<Lent<'a>, Fault>
    ensures { MatchResult result (λ t. Same t.heads.now t.entries.now t.orders.now heads.now entries.now orders.now × (roomy heads.now entries.now orders.now cells room ≡ true))
        (λ f. (f ≡ Fault.ShortPart) × (roomy heads.now entries.now orders.now cells room ≡ false)) }
{
    let lent = Lent::new(heads, entries, orders)?;
    if 256 <= cells && 4096 <= room {
        Ok(lent)
    } else {
        Err(Fault::ShortPart)
    }
}
