// An amount shared over a point-day's users by the sizes of a column of theirs.
ghost use Rattle.std.specs.Prelude.{◌≡◌, map, ◌++◌, ℕ, ◌≤◌, ◌<◌, nat_abs, length, drop};
ghost use Rattle.numbers.specs.Sums.{atZ, total};
ghost use Rattle.numbers.specs.Amounts.{Within};
ghost use Rattle.proration.specs.Proration.{prorateZ};
ghost use Rattle.point_day.specs.Limits.{USERS, LIMIT, AMOUNT};

use point_day::USERS;
use proration::Weights;

// An amount prorated over users by the sizes of these amounts, whose sum `weight_sum` is handed in, with room for keys and sizes; later
// shares stay.
fn share_by(
    amount: i64,
    users: &[u16],
    amounts: &[i64],
    weight_sum: u64,
    keys: &mut [u64],
    sizes: &mut [u64],
    shares: &mut [i64],
)
    requires within { Within LIMIT amount × (0 < length users.now) × (length users.now ≤ USERS) × (length amounts.now ≡ length users.now) × ((i : ℕ) → Within AMOUNT (atZ amounts.now i)) }
    requires weight_sum_value { (weight_sum ≡ total (map nat_abs amounts.now)) × (length keys.old ≡ length users.now) × (length sizes.old ≡ length users.now) × (length users.now ≤ length shares.old) }
    ensures { shares.new ≡ prorateZ amount (map nat_abs amounts.now) users.now ++ drop (length users.now) shares.old }
{
    super::keys_of(users, keys);
    super::sizes_of(amounts, sizes);
    let weights = Weights {
        each: sizes,
        sum: weight_sum,
    };
    split::prorate_signed(amount, weights, keys, shares);
}

// An amount prorated over users by the sizes of these amounts, whose sum `weight_sum` is handed in; later shares stay. (The two are no
// `Weights`: amounts are signed, as columns have them, and only their sizes are weights.)
pub fn share_out(amount: i64, users: &[u16], amounts: &[i64], weight_sum: u64, shares: &mut [i64])
    requires within { Within LIMIT amount × (0 < length users.now) × (length users.now ≤ USERS) × (length amounts.now ≡ length users.now) × ((i : ℕ) → Within AMOUNT (atZ amounts.now i)) }
    requires weight_sum_value { (weight_sum ≡ total (map nat_abs amounts.now)) × (length users.now ≤ length shares.old) }
    ensures { shares.new ≡ prorateZ amount (map nat_abs amounts.now) users.now ++ drop (length users.now) shares.old }
{
    let n = users.len();
    let mut keys = numbers::repeat::<_, USERS>(0);
    let mut sizes = numbers::repeat::<_, USERS>(0);
    share_by(
        amount,
        users,
        amounts,
        weight_sum,
        &mut keys[..n],
        &mut sizes[..n],
        shares,
    );
}
