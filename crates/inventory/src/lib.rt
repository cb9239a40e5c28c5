// The inventory of an allotted point-day.
#![tactic(auto)]

pub mod cells;
pub mod row;

ghost use Rattle.std.specs.Prelude.{◌≡◌, ◌≤◌, Err, IfOk};
ghost use Rattle.numbers.specs.declared.Refusal.TheVariants.{OutOfRange};
ghost use Rattle.point_day.specs.Limits.{USERS};
ghost use Rattle.point_day.specs.Struct.{read};
ghost use Rattle.taken.specs.Tested.{Finds, FindsOf};
ghost use Rattle.inventory.specs.Inventory.{inventory, answer_of, Afterwards};
ghost use Rattle.inventory.specs.Listed.{Ends};

use cells::Amounts;
use numbers::Refusal;
use point_day::{CELLS, KINDS, PointDay};
use row::ROW;
use taken::State;

// The inventory of a taken point-day with these cells, of which `state` is the test, into a lent buffer: the count of its rows. (The arrays
// come one by one, as a point-day by value and one in plain numbers have them.)
pub fn list_taken<'a>(
    state: &State,
    consumption: &'a [i64; CELLS],
    losses: &'a [i64; CELLS],
    balance: &'a [i64; CELLS],
    out: &mut [i64],
) -> Result<usize, Refusal>
    requires { state.now.count ≤ USERS }
    ensures { Finds state.now (λ d. d.consumption ≡ consumption.now → d.losses ≡ losses.now → d.balance ≡ balance.now → Ends d out.old (answer_of result) out.new) }
{
    if !state.allotted {
        return Err(Refusal::WrongStage);
    }
    let n = KINDS * state.count;
    let amounts = Amounts {
        consumption,
        losses,
        balance,
    };
    let rows = amounts.count_rows(n);
    if out.len() < ROW * rows {
        return Err(Refusal::ShortBuffer);
    }
    amounts.write_rows(&state.users, n, out);
    Ok(rows)
}

// The inventory of a point-day with these cells, of which `test` is the test: one that is not taken is refused by 2, and writes nothing.
pub fn list_rows<'a>(
    test: &Result<State, Refusal>,
    consumption: &'a [i64; CELLS],
    losses: &'a [i64; CELLS],
    balance: &'a [i64; CELLS],
    out: &mut [i64],
) -> Result<usize, Refusal>
    requires { IfOk test.now (λ s. s.count ≤ USERS) }
    ensures { FindsOf test.now ((result ≡ Err OutOfRange) × (out.new ≡ out.old)) (λ d. d.consumption ≡ consumption.now → d.losses ≡ losses.now → d.balance ≡ balance.now → Ends d out.old (answer_of result) out.new) }
{
    match test {
        Ok(state) => list_taken(state, consumption, losses, balance, out),
        Err(_) => Err(Refusal::OutOfRange),
    }
}

// The inventory of an allotted point-day: a row for each user and kind not all zero, into a lent buffer whose later numbers stay; their
// count.
pub fn inventory(day: PointDay, out: &mut [i64]) -> Result<usize, Refusal>
    ensures result_value { answer_of result ≡ inventory day out.old }
    ensures afterwards { Afterwards (inventory day out.old) (read day) out.old out.new }
{
    let test = taken::test_day(&day);
    list_rows(&test, &day.consumption, &day.losses, &day.balance, out)
}
