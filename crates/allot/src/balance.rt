// The balance of a point-day, over its users and their kinds.
ghost use Rattle.std.specs.Prelude.{◌≡◌, true, ◌++◌, ℕ, ◌*◌, ◌≤◌, ◌<◌, length, drop};
ghost use Rattle.numbers.specs.Sums.{atZ};
ghost use Rattle.numbers.specs.Lists.{distinct};
ghost use Rattle.numbers.specs.Amounts.{Within};
ghost use Rattle.point_day.specs.Limits.{USERS, CELLS, KINDS, LIMIT};
ghost use Rattle.allot.specs.UserWeights.{weights};
ghost use Rattle.allot.specs.Basis.{are_all};
ghost use Rattle.allot.specs.Shared.{shares_of};
ghost use Rattle.allot.specs.Slots.{balances_of, all_balances};

use super::shares;
use super::weights::{Kinds, Offtakes};
use point_day::{KINDS, USERS};

// Each user's share over its kinds, user after user; `ws` are the users' weights. Later cells stay.
fn spread_all<'a>(
    kinds: Kinds,
    offtakes: &Offtakes<'a>,
    ws: &[u64],
    shares: &[i64],
    cells: &mut [i64],
)
    requires shares_len_bound { (length shares.now ≤ USERS) × (length cells.old ≡ CELLS) }
    requires ws_value { (ws.now ≡ weights (are_all kinds) offtakes.now.consumption.now offtakes.now.losses.now (length shares.now)) × ((s : ℕ) → Within LIMIT (atZ shares.now s)) }
    ensures { cells.new ≡ balances_of (are_all kinds) offtakes.now.consumption.now offtakes.now.losses.now shares.now (length shares.now) ++ drop (KINDS * length shares.now) cells.old }
{
    for s in 0..shares.len() {
        let from = KINDS * s;
        let to = from + KINDS;
        shares::spread(
            shares[s],
            offtakes.kind_weights(kinds, s),
            ws[s],
            &mut cells[from..to],
        );
    }
}

// The same for the shares of a balance, which are left in `shares`; `keys` and `ws` are scratch, all three one number a user.
fn spread_balance<'a>(
    balance: i64,
    offtakes: &Offtakes<'a>,
    users: &'a [u16],
    keys: &mut [u64],
    ws: &mut [u64],
    shares: &mut [i64],
    cells: &mut [i64],
)
    requires within { Within LIMIT balance × (length cells.old ≡ CELLS) × (distinct users.now ≡ true) }
    requires users_nonzero { (0 < length users.now) × (length users.now ≤ USERS) × (length keys.old ≡ length users.now) × (length ws.old ≡ length users.now) × (length shares.old ≡ length users.now) }
    ensures shares_after { shares.new ≡ shares_of balance offtakes.now.consumption.now offtakes.now.losses.now users.now (length users.now) }
    ensures cells_after { cells.new ≡ all_balances balance offtakes.now.consumption.now offtakes.now.losses.now users.now (length users.now) ++ drop (KINDS * length users.now) cells.old }
{
    let kinds = shares::share_by(balance, offtakes, users, keys, ws, shares);
    spread_all(kinds, offtakes, ws, shares, cells);
}

// The shares of these users of the balance, and the balance of each of them and its kinds; later shares and cells stay.
pub fn balance_cells<'a>(
    balance: i64,
    offtakes: &Offtakes<'a>,
    users: &'a [u16],
    shares: &mut [i64],
    cells: &mut [i64],
)
    requires within { Within LIMIT balance × (length cells.old ≡ CELLS) × (distinct users.now ≡ true) }
    requires users_nonzero { (0 < length users.now) × (length users.now ≤ USERS) × (length users.now ≤ length shares.old) }
    ensures shares_after { shares.new ≡ shares_of balance offtakes.now.consumption.now offtakes.now.losses.now users.now (length users.now) ++ drop (length users.now) shares.old }
    ensures cells_after { cells.new ≡ all_balances balance offtakes.now.consumption.now offtakes.now.losses.now users.now (length users.now) ++ drop (KINDS * length users.now) cells.old }
{
    let n = users.len();
    let mut keys = numbers::repeat::<u64, USERS>(0);
    let mut ws = numbers::repeat::<u64, USERS>(0);
    spread_balance(
        balance,
        offtakes,
        users,
        &mut keys[..n],
        &mut ws[..n],
        &mut shares[..n],
        cells,
    );
}
