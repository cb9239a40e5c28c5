// What stands before the amounts of a point-day in plain numbers, and its amounts. (A slice and its length, as in `writes`.)
ghost use Rattle.std.specs.Prelude.{◌≡◌, true, map, ◌<◌, pos, nat_abs, length};
ghost use Rattle.numbers.specs.Sums.{atZ};
ghost use Rattle.numbers.specs.Lists.{every};
ghost use Rattle.point_day.specs.Limits.{LAST_NUMBER};
ghost use Rattle.plain_day.specs.Layout.{LENGTH, up_to, stage_of, measurement_of, stage_in, allotted_in, measurement_in, count_in, day_in, stage_number};

use super::{
    ALLOTTED_AT, BALANCE_AT, CONSUMPTION_AT, COUNT_AT, DOWNSTREAM_AT, EMISSION_AT, LENGTH,
    LOSSES_AT, MEASURED_AT, REVISION_AT, STAGE_AT,
};
use point_day::{Measurement, Stage};
use state::amounts::Amounts;

fn user_number(x: i64) -> u16
    requires { up_to LAST_NUMBER x ≡ true }
    ensures { result ≡ nat_abs x }
{
    x.unsigned_abs() as u16
}

// User numbers, in 16 bits. (One by one, since each is converted.)
pub fn copy_users(xs: &[i64], users: &mut [u16])
    requires { (length users.old ≡ length xs.now) × (every (up_to LAST_NUMBER) xs.now ≡ true) }
    ensures { users.new ≡ map nat_abs xs.now }
{
    for i in 0..xs.len() {
        users[i] = user_number(xs[i]);
    }
}

// The stage of a number. (No error, and so no `TryFrom`: of the numbers that are readable, only 2 is left for the last.)
pub fn stage_of(number: u64) -> Stage
    ensures { result ≡ stage_of number }
{
    match number {
        0 => Stage::Provisional,
        1 => Stage::FinalProvisional,
        _ => Stage::FinalDefinitive,
    }
}

// The measurement of three numbers, of which the first tells whether there is one, as callers in other languages have them.
pub fn measurement_of(measured: u64, emission: u64, downstream: u64) -> Option<Measurement>
    ensures { result ≡ measurement_of measured emission downstream }
{
    match measured {
        0 => None,
        _ => Some(Measurement {
            emission,
            downstream,
        }),
    }
}

// The size of a number of the list.
fn size_at(xs: &[i64], i: usize) -> u64
    requires { i < length xs.now }
    ensures { result ≡ nat_abs (atZ xs.now i) }
{
    xs[i].unsigned_abs()
}

pub fn stage_in(xs: &[i64]) -> Stage
    requires { length xs.now ≡ LENGTH }
    ensures { result ≡ stage_in xs.now }
{
    stage_of(size_at(xs, STAGE_AT))
}

pub fn allotted_in(xs: &[i64]) -> bool
    requires { length xs.now ≡ LENGTH }
    ensures { result ≡ allotted_in xs.now }
{
    size_at(xs, ALLOTTED_AT) == 1
}

pub fn measurement_in(xs: &[i64]) -> Option<Measurement>
    requires { length xs.now ≡ LENGTH }
    ensures { result ≡ measurement_in xs.now }
{
    measurement_of(
        size_at(xs, MEASURED_AT),
        size_at(xs, EMISSION_AT),
        size_at(xs, DOWNSTREAM_AT),
    )
}

pub fn count_in(xs: &[i64]) -> usize
    requires { length xs.now ≡ LENGTH }
    ensures { result ≡ count_in xs.now }
{
    size_at(xs, COUNT_AT) as usize
}

// The amounts, lent where they stand.
pub fn amounts_in<'a>(xs: &'a [i64]) -> Amounts<'a>
    requires { length xs.now ≡ LENGTH }
    ensures { let d = day_in xs.now in (result.consumption.now ≡ d.consumption) × (result.losses.now ≡ d.losses) × (result.balance.now ≡ d.balance) × (result.revision.now ≡ d.revision) }
{
    Amounts {
        consumption: xs[CONSUMPTION_AT..LOSSES_AT].as_array().unwrap(),
        losses: xs[LOSSES_AT..BALANCE_AT].as_array().unwrap(),
        balance: xs[BALANCE_AT..REVISION_AT].as_array().unwrap(),
        revision: xs[REVISION_AT..LENGTH].as_array().unwrap(),
    }
}

// The number of a stage. (A name for the cast, which promises nothing by itself.)
pub fn stage_number(stage: Stage) -> i64
    ensures { result ≡ pos (stage_number stage) }
{
    stage as i64
}
