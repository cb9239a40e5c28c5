// Consumption of a supply point: its amounts and contracted flows, and a new consumer's consumption.
#![tactic(auto)]

ghost use Rattle.std.specs.Prelude.{◌≡◌, true};
ghost use Rattle.calendar.specs.Answers.{answer_of};
ghost use Rattle.supply.specs.Amounts.{amount_right, flows_right, limited};
ghost use Rattle.supply.specs.NewConsumer.{new_consumption};

use numbers::Refusal;

// 10^9 kWh: the most of a reading, a flow, a month's consumption and a computed consumption.
pub const LIMIT: u64 = 1000000000;

// The parts of f_c and C_f.
pub const THOUSAND: u64 = 1000;

// What a new consumer's yearly flow is divided by.
const NEW_DAYS: u64 = 210;

#[derive(Clone, Copy, Debug, PartialEq, Eq)]
pub enum Toll {
    Toll34,
    OtherToll,
}

// The contracted flows of a point: its toll, Q_a (a year), Q_d (a day), either of which may be missing, and f_c.
#[derive(Clone, Copy)]
pub struct Flows {
    pub toll: Toll,
    pub yearly: Option<u64>,
    pub daily: Option<u64>,
    pub factor: u32,
}

// Whether an amount is in its range, or missing.
pub fn is_amount(amount: Option<u64>) -> bool
    ensures { result ≡ amount_right amount }
{
    amount.is_none_or(|kwh| kwh <= LIMIT)
}

// A computed consumption, refused above the limit.
#[tactic(auto, unfolding(crate::specs::Amounts::limited, calendar::specs::Answers::tested))]
pub fn limited_to(kwh: u64) -> Result<u64, Refusal>
    ensures { answer_of result ≡ limited kwh }
{
    if LIMIT < kwh {
        return Err(Refusal::AboveLimit);
    }
    Ok(kwh)
}

// Whether the contracted flows are in their ranges.
#[tactic(auto, unfolding(crate::specs::Amounts::flows_right))]
pub fn are_flows(flows: Flows) -> bool
    ensures { result ≡ flows_right flows }
{
    is_amount(flows.yearly) && is_amount(flows.daily) && u64::from(flows.factor) <= THOUSAND
}

// A new consumer's consumption, from the yearly flow or from the daily one, if it is there.
#[tactic(auto, unfolding(crate::specs::NewConsumer::new_consumption, crate::specs::Amounts::flows_right))]
pub fn new_consumption(flows: Flows) -> Option<u64>
    requires { flows_right flows ≡ true }
    ensures { result ≡ new_consumption flows }
{
    match flows.toll {
        Toll::Toll34 => Some(numbers::nearest(flows.yearly?, NEW_DAYS)),
        Toll::OtherToll => Some(numbers::nearest(flows.daily? * u64::from(flows.factor), THOUSAND)),
    }
}
