// The symbols of the C interface: each calls the function of its name in `exports`, and promises what it promises.
#![tactic(auto)]

ghost use Rattle.std.specs.Prelude.{◌≡◌, [], ◌∷◌};
ghost use Rattle.std.proofs.Math.Option.{some};
ghost use Rattle.exports.specs.Calls.{call, read_call, write_call, receipt_call, test_call, solve_call};

// Reads a placement text into the lent tables.
#[unsafe(no_mangle)]
pub extern "C" fn frostcrumb_read_placement(
    text: &[u8],
    heads: &mut [u16],
    entries: &mut [u16],
    orders: &mut [u16],
    answer: &mut [u64],
) -> usize
    ensures { call result answer.new (heads.new ∷ entries.new ∷ orders.new ∷ []) ≡ read_call text.now heads.old entries.old orders.old answer.old }
{
    exports::frostcrumb_read_placement(text, heads, entries, orders, answer)
}

// Writes the text of the placement that the lent tables hold over the front of the output.
#[unsafe(no_mangle)]
pub extern "C" fn frostcrumb_write_placement(
    heads: &[u16],
    entries: &[u16],
    orders: &[u16],
    out: &mut [u8],
    answer: &mut [u64],
) -> usize
    ensures { call result answer.new (out.new ∷ []) ≡ write_call heads.now entries.now orders.now out.old answer.old }
{
    exports::frostcrumb_write_placement(heads, entries, orders, out, answer)
}

// Whether a trainee's list was received.
#[unsafe(no_mangle)]
pub extern "C" fn frostcrumb_trainee_receipt(
    heads: &[u16],
    entries: &[u16],
    orders: &[u16],
    trainee: usize,
    answer: &mut [u64],
) -> usize
    ensures { call result answer.new [] ≡ receipt_call heads.now entries.now orders.now trainee answer.old }
{
    exports::frostcrumb_trainee_receipt(heads, entries, orders, trainee, answer)
}

// Tests the stability of a table of n trainees.
#[unsafe(no_mangle)]
pub extern "C" fn frostcrumb_test_table(
    heads: &[u16],
    entries: &[u16],
    orders: &[u16],
    n: u16,
    table: &[u16],
    answer: &mut [u64],
) -> usize
    ensures { call result answer.new [] ≡ test_call heads.now entries.now orders.now n table.now answer.old }
{
    exports::frostcrumb_test_table(heads, entries, orders, n, table, answer)
}

// Solves a placement: the ruling's table over the front of the table, and its strikes over the front of the cells, four to a strike.
#[unsafe(no_mangle)]
pub extern "C" fn frostcrumb_solve(
    heads: &[u16],
    entries: &[u16],
    orders: &[u16],
    table: &mut [u16],
    cells: &mut [u16],
    answer: &mut [u64],
) -> usize
    ensures { solve_call heads.now entries.now orders.now table.old cells.old answer.old ≡ some (call result answer.new (table.new ∷ cells.new ∷ [])) }
{
    exports::frostcrumb_solve(heads, entries, orders, table, cells, answer)
}
