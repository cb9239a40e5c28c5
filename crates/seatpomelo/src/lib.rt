// The calls for programs in other languages, on numbers and lists that the caller lends, as C has them; `seatpomelo_c` exports them.
#![tactic(auto)]

ghost use Rattle.std.specs.Prelude.{◌≡◌, [], ◌∷◌, length, pos};
ghost use Rattle.numbers.specs.Refusals.{status_of};
ghost use Rattle.point_day.specs.Limits.{TOLERANCE};
ghost use Rattle.point_day.specs.Calls.{join, line, measure, allot, stand_in, revise, start_final};
ghost use Rattle.point_day.specs.Struct.{read, rows_of, called};
ghost use Rattle.stand_in.specs.Rows.{rows_in};
ghost use Rattle.inventory.specs.Inventory.{Afterwards};
ghost use Rattle.plain_day.specs.Layout.{day_in};
ghost use Rattle.plain_day.specs.Plain.{plain, plain_call, plain_fresh};
ghost use Rattle.plain_day.specs.Lines.{plain_lines};
ghost use Rattle.in_place.specs.Listing.{plain_inventory, status, row_count};
ghost use Rattle.calendar.specs.DayTypes.{type_call};
ghost use Rattle.months.specs.WorkingDays.{month_call};
ghost use Rattle.degree_days.specs.Degrees.{degree_days_call};
ghost use Rattle.zones.specs.Zones.{zone_call, province_call};
ghost use Rattle.type_1.specs.Type1.{toll_34, other_toll};
ghost use Rattle.type_2.specs.Type2.{type_2, profile};
ghost use Rattle.telemetered.specs.Telemetered.{telemetered};
ghost use Rattle.split.specs.Call.{answer, after};
ghost use Rattle.spread.specs.Spread.{spread, number_of};
ghost use Rattle.day_report.specs.Answered.{report_call, buffer_after, size_of};
ghost use Rattle.seatpomelo.specs.Settled.{settled, settles, value_or, number, size, type_number, month_numbers, province_numbers, estimate_numbers};
ghost use Rattle.plain_values.specs.Lists.{amount_in, own_in, flows_in, entries_in, entry_count};

use calendar::DayType;
use line::cells::LineEntry;
use numbers::Refusal;
use plain_values::HistoryLists;
use revise::Revision;
use type_1::{OtherToll, Toll34};
use type_2::Year;

// ---- Statuses and values

// The status of a call: 0, or the number of its refusal.
fn status(answer: Result<(), Refusal>) -> u8
    ensures { result ≡ status_of answer }
{
    match answer {
        Ok(()) => 0,
        Err(refusal) => u8::from(refusal),
    }
}

// A call that gives one number: it is written, unless the call is refused.
fn settle(answer: Result<u64, Refusal>, out: &mut u64) -> u8
    ensures { (result ≡ status_of answer) × (out.new ≡ value_or answer out.old) }
{
    match answer {
        Ok(value) => {
            *out = value;
            0
        }
        Err(refusal) => status(Err(refusal)),
    }
}

// The same of a call that gives a count.
fn settle_count(answer: Result<usize, Refusal>, out: &mut u64) -> u8
    ensures { (result ≡ status_of answer) × (out.new ≡ value_or answer out.old) }
{
    settle(answer.map(|count| count as u64), out)
}

// A day type's number. (A name over the cast, with a contract: the cast promises nothing by itself.)
fn type_number(day_type: DayType) -> u64
    ensures { result ∷ [] ≡ type_number day_type }
{
    day_type as u64
}

// ---- The point-day, in plain numbers that the caller lends, in place

// A fresh point-day.
pub fn seatpomelo_fresh(day: &mut [i64]) -> u8
    ensures { plain result [] day.new ≡ plain_fresh day.old }
{
    status(in_place::fresh(day))
}

// Join.
pub fn seatpomelo_join(day: &mut [i64], user: u16) -> u8
    ensures { plain result [] day.new ≡ plain_call (called (join user)) [] day.old }
{
    status(in_place::join(day, user))
}

// Line; gives the losses added.
pub fn seatpomelo_line(
    day: &mut [i64],
    user: u16,
    kind: u8,
    consumption: u64,
    coefficient: u64,
    losses_added: &mut u64,
) -> u8
    ensures { plain result (pos losses_added.new ∷ []) day.new ≡ plain_call (called (line user kind consumption coefficient)) (pos losses_added.old ∷ []) day.old }
{
    let entry = LineEntry {
        user,
        kind,
        consumption,
        coefficient,
    };
    settle(in_place::line(day, entry), losses_added)
}

// Many lines: line after line until one is refused; gives how many were accepted, and the losses that they added, in every case.
pub fn seatpomelo_lines<'a>(
    day: &mut [i64],
    users: &'a [u16],
    kinds: &'a [u8],
    consumptions: &'a [u64],
    coefficients: &'a [u64],
    accepted: &mut u64,
    losses_added: &mut u64,
) -> u8
    ensures { plain result (pos accepted.new ∷ pos losses_added.new ∷ []) day.new ≡ plain_lines users.now kinds.now consumptions.now coefficients.now day.old }
{
    let entered = many_lines::lines(day, users, kinds, consumptions, coefficients);
    *accepted = entered.accepted;
    *losses_added = entered.losses;
    status(entered.end)
}

// Measure.
pub fn seatpomelo_measure(day: &mut [i64], emission: u64, downstream: u64) -> u8
    ensures { plain result [] day.new ≡ plain_call (called (measure emission downstream)) [] day.old }
{
    status(in_place::measure(day, emission, downstream))
}

// Allot.
pub fn seatpomelo_allot(day: &mut [i64]) -> u8
    ensures { plain result [] day.new ≡ plain_call (called allot) [] day.old }
{
    status(in_place::allot(day))
}

// Stand-in, with its rows in three lists; gives the rows looked at.
pub fn seatpomelo_stand_in<'a>(
    day: &mut [i64],
    counts: &'a [usize],
    users: &'a [u16],
    amounts: &'a [i64],
    rows_looked_at: &mut u64,
) -> u8
    ensures { plain result (pos rows_looked_at.new ∷ []) day.new ≡ plain_call (called (stand_in TOLERANCE (rows_of (rows_in counts.now users.now amounts.now)))) (pos rows_looked_at.old ∷ []) day.old }
{
    settle_count(
        in_place::stand_in(day, counts, users, amounts),
        rows_looked_at,
    )
}

// Revise; gives 1 if R is within the tolerance, 0 if it is assigned, and R.
pub fn seatpomelo_revise(day: &mut [i64], within: &mut u64, amount: &mut i64) -> u8
    ensures { plain result (pos within.new ∷ amount.new ∷ []) day.new ≡ plain_call (called (revise TOLERANCE)) (pos within.old ∷ amount.old ∷ []) day.old }
{
    match in_place::revise(day) {
        Ok(Revision::Within(outstanding)) => {
            *within = 1;
            *amount = outstanding;
            0
        }
        Ok(Revision::Assigned(outstanding)) => {
            *within = 0;
            *amount = outstanding;
            0
        }
        Err(refusal) => status(Err(refusal)),
    }
}

// Start-final.
pub fn seatpomelo_start_final(day: &mut [i64]) -> u8
    ensures { plain result [] day.new ≡ plain_call (called start_final) [] day.old }
{
    status(in_place::start_final(day))
}

// Inventory; gives the count of rows.
pub fn seatpomelo_inventory<'a>(day: &'a [i64], out: &mut [i64], rows: &mut u64) -> u8
    ensures value { result ≡ status (plain_inventory day.now out.old) }
    ensures rows_after { rows.new ≡ row_count (plain_inventory day.now out.old) rows.old }
    ensures afterwards { Afterwards (plain_inventory day.now out.old) (read (day_in day.now)) out.old out.new }
{
    settle_count(in_place::inventory(day, out), rows)
}

// ---- Calendar

// The type of a gas day.
pub fn seatpomelo_day_type(day: u32, holidays: &[u32], day_type: &mut u64) -> u8
    ensures { settled result (day_type.new ∷ []) ≡ settles type_number (type_call day holidays.now) (day_type.old ∷ []) }
{
    settle(calendar::day_type(day, holidays).map(type_number), day_type)
}

// The month of a gas day: its first day, its days, the mask of its working days and how many they are.
pub fn seatpomelo_month(
    day: u32,
    holidays: &[u32],
    first: &mut u64,
    days: &mut u64,
    mask: &mut u64,
    working: &mut u64,
) -> u8
    ensures { settled result (first.new ∷ days.new ∷ mask.new ∷ working.new ∷ []) ≡ settles month_numbers (month_call day holidays.now) (first.old ∷ days.old ∷ mask.old ∷ working.old ∷ []) }
{
    match months::month_figures(day, holidays) {
        Ok(month) => {
            *first = u64::from(month.first);
            *days = u64::from(month.days);
            *mask = u64::from(month.mask);
            *working = u64::from(month.working);
            0
        }
        Err(refusal) => status(Err(refusal)),
    }
}

// ---- Consumption of a supply point

// Telemetered: consumption, and the entries looked at.
pub fn seatpomelo_telemetered(
    day: u32,
    holidays: &[u32],
    reading: &[u64],
    own: &[u64],
    arrival: u32,
    day_length: u32,
    toll: u8,
    yearly: &[u64],
    daily: &[u64],
    factor: u32,
    tags: &[u8],
    values: &[u64],
    consumption: &mut u64,
    looked_at: &mut u64,
) -> u8
    ensures { settled result (consumption.new ∷ looked_at.new ∷ []) ≡ settles estimate_numbers (telemetered day holidays.now (amount_in reading.now) (own_in own.now arrival day_length) (flows_in toll yearly.now daily.now factor) (entry_count tags.now values.now) (entries_in tags.now values.now)) (consumption.old ∷ looked_at.old ∷ []) }
{
    if tags.len() != values.len() {
        return status(Err(Refusal::OutOfRange));
    }
    let answer = telemetered::consumption(
        day,
        holidays,
        plain_values::amount_in(reading),
        plain_values::own_in(own, arrival, day_length),
        plain_values::flows_in(toll, yearly, daily, factor),
        &HistoryLists { tags, values },
    );
    match answer {
        Ok(estimate) => {
            *consumption = estimate.kwh;
            *looked_at = estimate.looked as u64;
            0
        }
        Err(refusal) => status(Err(refusal)),
    }
}

// Type 1, toll 3.4.
pub fn seatpomelo_type_1_toll_34(
    day: u32,
    last_year: &[u64],
    g: u32,
    last_days: &[u32],
    last_month: &[u64],
    yearly: &[u64],
    consumption: &mut u64,
) -> u8
    ensures { settled result (consumption.new ∷ []) ≡ settles number (toll_34 day (amount_in last_year.now) g last_days.now (amount_in last_month.now) (amount_in yearly.now)) (consumption.old ∷ []) }
{
    let point = Toll34 {
        day,
        last_year: plain_values::amount_in(last_year),
        g,
        last_days,
        last_month: plain_values::amount_in(last_month),
        year_flow: plain_values::amount_in(yearly),
    };
    settle(type_1::toll_34(&point), consumption)
}

// Type 1, another toll.
pub fn seatpomelo_type_1_other_toll(
    day: u32,
    holidays: &[u32],
    last_year: &[u64],
    c_c: u32,
    last_month: &[u64],
    daily: &[u64],
    f_c: u32,
    c_f: u32,
    consumption: &mut u64,
) -> u8
    ensures { settled result (consumption.new ∷ []) ≡ settles number (other_toll day holidays.now (amount_in last_year.now) c_c (amount_in last_month.now) (amount_in daily.now) f_c c_f) (consumption.old ∷ []) }
{
    let point = OtherToll {
        day,
        holidays,
        last_year: plain_values::amount_in(last_year),
        c_c,
        last_month: plain_values::amount_in(last_month),
        day_flow: plain_values::amount_in(daily),
        f_c,
        c_f,
    };
    settle(type_1::other_toll(&point), consumption)
}

// Type 2, with the degree days of one winter or of two.
pub fn seatpomelo_type_2(
    consumers: u32,
    profile: u64,
    g: u32,
    winters: u8,
    first: &[u32],
    second: &[u32],
    consumption: &mut u64,
) -> u8
    ensures { settled result (consumption.new ∷ []) ≡ settles number (type_2 consumers profile g winters first.now second.now) (consumption.old ∷ []) }
{
    settle(
        type_2::type_2(consumers, profile, g, winters, first, second),
        consumption,
    )
}

// A profile, in Wh.
pub fn seatpomelo_profile(
    f1: u64,
    f2: u64,
    nc1: u32,
    nc2: u32,
    n1: u32,
    n2: u32,
    wh: &mut u64,
) -> u8
    ensures { settled result (wh.new ∷ []) ≡ settles number (profile f1 f2 nc1 nc2 n1 n2) (wh.old ∷ []) }
{
    let one = Year {
        consumption: f1,
        consumers: nc1,
        days: n1,
    };
    let two = Year {
        consumption: f2,
        consumers: nc2,
        days: n2,
    };
    settle(type_2::profile(one, two), wh)
}

// ---- Temperature

// Degree days, in fortieths of a degree.
pub fn seatpomelo_degree_days(tmin: i32, tmax: i32, fortieths: &mut u64) -> u8
    ensures { settled result (fortieths.new ∷ []) ≡ settles size (degree_days_call tmin tmax) (fortieths.old ∷ []) }
{
    settle(degree_days::degree_days(tmin, tmax), fortieths)
}

// The zone of a degree-day value, in hundredths.
pub fn seatpomelo_zone(hundredths: u32, zone: &mut u64) -> u8
    ensures { settled result (zone.new ∷ []) ≡ settles number (zone_call hundredths) (zone.old ∷ []) }
{
    settle(zones::zone_of(hundredths), zone)
}

// A province's value, in hundredths, and its zone.
pub fn seatpomelo_province(number: u32, value: &mut u64, zone: &mut u64) -> u8
    ensures { settled result (value.new ∷ zone.new ∷ []) ≡ settles province_numbers (province_call number) (value.old ∷ zone.old ∷ []) }
{
    match zones::province_of(number) {
        Ok(province) => {
            *value = u64::from(province.mean);
            *zone = u64::from(province.zone);
            0
        }
        Err(refusal) => status(Err(refusal)),
    }
}

// ---- Proration, and spreading a reading

// An amount of either sign prorated over weights; equal remainders go to the lower key.
pub fn seatpomelo_split(amount: i64, weights: &[u64], keys: &[u64], out: &mut [i64]) -> u8
    ensures value { result ≡ answer amount weights.now keys.now out.old }
    ensures out_after { out.new ≡ after amount weights.now keys.now out.old }
{
    status(split::split(amount, weights, keys, out))
}

// A reading spread over the days of its period.
pub fn seatpomelo_spread(reading: u64, weights: &[i64], out: &mut [i64]) -> u8
    ensures value { result ≡ number_of (spread reading weights.now out.old).verdict }
    ensures out_after { out.new ≡ (spread reading weights.now out.old).buffer }
{
    status(spread::spread(reading, weights, out))
}

// ---- Day report

// The report on a day file: its text at the start of `out`, which must have room for the longest, and how many bytes it has.
pub fn seatpomelo_day_report(file: &[u8], out: &mut [u8], written: &mut u64) -> u8
    ensures written_after { settled result (written.new ∷ []) ≡ settles number (size_of (report_call file.now (length out.old))) (written.old ∷ []) }
    ensures out_after { out.new ≡ buffer_after (report_call file.now (length out.old)) out.old }
{
    settle_count(day_report::write_report(file, out), written)
}
