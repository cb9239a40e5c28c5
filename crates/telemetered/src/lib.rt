// Telemetered points: the reading, the user's own value, the mean of the last three readings, or a new consumer's flow.
#![tactic(auto)]

pub mod own_value;

ghost use Rattle.std.specs.Prelude.{◌≡◌, true, length};
ghost use Rattle.numbers.specs.Lists.{both};
ghost use Rattle.calendar.specs.Answers.{answer_of};
ghost use Rattle.supply.specs.Amounts.{amount_right, flows_right};
ghost use Rattle.telemetered.specs.OwnValue.{value_sent};
ghost use Rattle.history.specs.History.{history_right};
ghost use Rattle.telemetered.specs.Telemetered.{from_found, values_right, telemetered};

use calendar::Calendar;
use history::{ENTRIES, Entries, Entry, Found};
use numbers::Refusal;
use own_value::OwnValue;
use supply::Flows;

// A consumption, and the entries of the history that were looked at.
#[derive(Clone, Copy)]
pub struct Estimate {
    pub kwh: u64,
    pub looked: usize,
}

// What a search leads to: the mean of the matches, or a new consumer's consumption, or no basis.
#[tactic(auto, unfolding(crate::specs::Telemetered::from_found))]
fn from_found(found: Found, flows: Flows) -> Result<Estimate, Refusal>
    requires { flows_right flows ≡ true }
    ensures { answer_of result ≡ from_found flows found }
{
    let looked = found.looked;
    if found.matches != 0 {
        let kwh = numbers::nearest(found.sum, found.matches);
        return Ok(Estimate { kwh, looked });
    }
    if found.real {
        return Err(Refusal::NoBasis);
    }
    let kwh = supply::new_consumption(flows).ok_or(Refusal::NoBasis)?;
    Ok(Estimate { kwh, looked })
}

// Whether the reading, the user's own value and the contracted flows are in their ranges, or missing. (A call of its own: the loops of the
// history have the registers to themselves.)
#[inline(never)]
fn are_amounts(reading: Option<u64>, own: Option<OwnValue>, flows: Flows) -> bool
    ensures { result ≡ both (amount_right reading) (both (amount_right (value_sent own)) (flows_right flows)) }
{
    supply::is_amount(reading)
        && supply::is_amount(own_value::value_sent(own))
        && supply::are_flows(flows)
}

// The consumption of a telemetered supply point once all that is given is in its range, the history too, however that is held.
#[tactic(auto, unfolding(crate::specs::Telemetered::telemetered, crate::specs::Telemetered::values_right, calendar::specs::Answers::tested))]
fn of_values<E: Entries>(
    calendar: &Calendar,
    reading: Option<u64>,
    own: Option<OwnValue>,
    flows: Flows,
    history: &E,
) -> Result<Estimate, Refusal>
    requires values { values_right calendar.now.day calendar.now.holidays.now reading own flows ≡ true }
    requires entries { history_right calendar.now.day (length (E.entries history.now)) (E.entries history.now) ≡ true }
    ensures { answer_of result ≡ telemetered calendar.now.day calendar.now.holidays.now reading own flows (length (E.entries history.now)) (E.entries history.now) }
{
    if !own_value::is_arrival(own) {
        return Err(Refusal::WrongArrival);
    }
    if let Some(kwh) = reading.or(own_value::value_to_use(own)) {
        return Ok(Estimate { kwh, looked: 0 });
    }
    from_found(history::search(calendar, history), flows)
}

// The consumption of a telemetered supply point on a gas day, given its reading and the user's own value, if there are any, and its history,
// however that is held.
#[tactic(auto, unfolding(crate::specs::Telemetered::telemetered, crate::specs::Telemetered::values_right, calendar::specs::Answers::tested))]
pub fn consumption<E: Entries>(
    day: u32,
    holidays: &[u32],
    reading: Option<u64>,
    own: Option<OwnValue>,
    flows: Flows,
    history: &E,
) -> Result<Estimate, Refusal>
    ensures { answer_of result ≡ telemetered day holidays.now reading own flows (length (E.entries history.now)) (E.entries history.now) }
{
    let calendar = Calendar::of(day, holidays)?;
    if !are_amounts(reading, own, flows) || !history::is_history(day, history) {
        return Err(Refusal::OutOfRange);
    }
    of_values(&calendar, reading, own, flows, history)
}

// The same with the history by value. (The form of document 01: 400 entries, of which the first `count` are looked at. The tests stand here
// again: that of the history is of the count too.)
#[tactic(auto, unfolding(crate::specs::Telemetered::telemetered, crate::specs::Telemetered::values_right, calendar::specs::Answers::tested))]
pub fn telemetered(
    day: u32,
    holidays: &[u32],
    reading: Option<u64>,
    own: Option<OwnValue>,
    flows: Flows,
    history: [Entry; ENTRIES],
    count: usize,
) -> Result<Estimate, Refusal>
    ensures { answer_of result ≡ telemetered day holidays.now reading own flows count history }
{
    let calendar = Calendar::of(day, holidays)?;
    if !are_amounts(reading, own, flows) || !history::is_counted(day, &history, count) {
        return Err(Refusal::OutOfRange);
    }
    of_values(&calendar, reading, own, flows, &&history[..count])
}
