// What a revision shares out: R, net less everything allotted, and two columns added.
ghost use Rattle.std.specs.Prelude.{◌≡◌, true, ◌++◌, ℕ, ◌≤◌, ◌+ℤ◌, ◌-ℤ◌, length, drop};
ghost use Rattle.numbers.specs.Sums.{table, atZ};
ghost use Rattle.numbers.specs.Amounts.{Within};
ghost use Rattle.point_day.specs.Limits.{LIMIT};
ghost use Rattle.point_day.specs.Day.{net_of, measurement_right};
ghost use Rattle.point_day.specs.Struct.{sum_right};
ghost use Rattle.columns.specs.Summable.{SUMMABLE};

use point_day::Measurement;

// R: net less everything allotted.
pub fn outstanding(measurement: Option<Measurement>, allotted: i64) -> i64
    requires { (measurement_right measurement ≡ true) × (sum_right allotted ≡ true) }
    ensures { (result ≡ net_of measurement -ℤ allotted) × Within LIMIT result }
{
    numbers::minus(state::net(measurement) as i64, allotted)
}

// The sums of two columns, place by place; numbers of `sums` past them stay.
pub fn add_columns<'a>(xs: &'a [i64], ys: &'a [i64], sums: &mut [i64])
    requires xs_in_bounds { (length xs.now ≤ length ys.now) × (length xs.now ≤ length sums.old) }
    requires by_index { ((i : ℕ) → Within SUMMABLE (atZ xs.now i)) × ((i : ℕ) → Within SUMMABLE (atZ ys.now i)) }
    ensures { sums.new ≡ table (λ i. atZ xs.now i +ℤ atZ ys.now i) (length xs.now) ++ drop (length xs.now) sums.old }
{
    for i in 0..xs.len() {
        sums[i] = numbers::plus(xs[i], ys[i]);
    }
}
