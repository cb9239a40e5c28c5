// Shares of a balance: over the users, and a user's share over its kinds.
ghost use Rattle.std.specs.Prelude.{◌≡◌, ◌++◌, ◌≤◌, ◌<◌, length, drop};
ghost use Rattle.numbers.specs.Sums.{Bounded};
ghost use Rattle.numbers.specs.Sums as sums;
ghost use Rattle.numbers.specs.Amounts.{Within};
ghost use Rattle.proration.specs.Proration.{LARGEST_WEIGHT, prorateZ};
ghost use Rattle.point_day.specs.Limits.{USERS, KINDS, LIMIT};
ghost use Rattle.point_day.specs.Calls.{or_kind_1, kinds};
ghost use Rattle.allot.specs.UserWeights.{CellsInRange, by_all_kinds, basis_weights};
ghost use Rattle.allot.specs.Basis.{are_all};
ghost use Rattle.allot.specs.Shared.{shares_of};

use super::weights::{Kinds, Offtakes};
use point_day::{KINDS, USERS};
use proration::Weights;

// The shares of the balance of as many users as there is room for weights, which `ws` then holds; later shares stay. `keys` is scratch.
// Returns the kinds that the weights are of.
pub fn share_by<'a>(
    balance: i64,
    offtakes: &Offtakes<'a>,
    users: &'a [u16],
    keys: &mut [u64],
    ws: &mut [u64],
    shares: &mut [i64],
) -> Kinds
    requires within { Within LIMIT balance × (length ws.old ≤ length users.now) }
    requires ws_nonzero { (0 < length ws.old) × (length ws.old ≤ USERS) × (length keys.old ≡ length ws.old) × (length ws.old ≤ length shares.old) }
    ensures value { are_all result ≡ by_all_kinds offtakes.now.consumption.now offtakes.now.losses.now (length ws.old) }
    ensures ws_after { ws.new ≡ basis_weights offtakes.now.consumption.now offtakes.now.losses.now (length ws.old) }
    ensures shares_after { shares.new ≡ shares_of balance offtakes.now.consumption.now offtakes.now.losses.now users.now (length ws.old) ++ drop (length ws.old) shares.old }
{
    columns::keys_of(users, keys);
    let basis = offtakes.weigh(ws);
    let weights = Weights {
        each: ws,
        sum: basis.total,
    };
    split::prorate_signed(balance, weights, keys, shares);
    basis.kinds
}

// The shares of these users of the balance; later shares stay. Returns the kinds that the weights are of.
pub fn share_out<'a>(
    balance: i64,
    consumption: &'a [i64],
    losses: &'a [i64],
    users: &'a [u16],
    shares: &mut [i64],
) -> Kinds
    requires within { Within LIMIT balance × CellsInRange consumption.now losses.now }
    requires users_nonzero { (0 < length users.now) × (length users.now ≤ USERS) × (length users.now ≤ length shares.old) }
    ensures value { are_all result ≡ by_all_kinds consumption.now losses.now (length users.now) }
    ensures shares_after { shares.new ≡ shares_of balance consumption.now losses.now users.now (length users.now) ++ drop (length users.now) shares.old }
{
    let n = users.len();
    let offtakes = Offtakes {
        consumption,
        losses,
    };
    let mut keys = numbers::repeat::<u64, USERS>(0);
    let mut ws = numbers::repeat::<u64, USERS>(0);
    share_by(
        balance,
        &offtakes,
        users,
        &mut keys[..n],
        &mut ws[..n],
        shares,
    )
}

// A user's share over its kinds, whose weights are `ws`, together `total`. (The two are no `Weights`: the array says that they are five.)
pub fn spread(share: i64, ws: [u64; KINDS], total: u64, cells: &mut [i64])
    requires { Within LIMIT share × Bounded LARGEST_WEIGHT ws × (total ≡ sums.total ws) × (length cells.old ≡ KINDS) }
    ensures { cells.new ≡ prorateZ share (or_kind_1 ws) kinds }
{
    let keys: [u64; KINDS] = [1, 2, 3, 4, 5];
    if total == 0 {
        let first: [u64; KINDS] = [1, 0, 0, 0, 0];
        let to_first = Weights {
            each: &first,
            sum: 1,
        };
        split::prorate_signed(share, to_first, &keys, cells);
    } else {
        let weights = Weights {
            each: &ws,
            sum: total,
        };
        split::prorate_signed(share, weights, &keys, cells);
    }
}
