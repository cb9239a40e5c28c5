// Values that stand in lists of numbers: an optional amount, the user's own value, contracted flows, a history. What has no meaning becomes a
// value out of its range.
#![tactic(auto)]

ghost use Rattle.std.specs.Prelude.{◌≡◌, length};
ghost use Rattle.plain_values.specs.Lists.{amount_in, own_in, toll_in, factor_in, flows_in, reading_in, entries_in};

use history::{Entries, Reading};
use supply::{Flows, LIMIT, THOUSAND, Toll};
use telemetered::own_value::OwnValue;

// An amount that may be missing.
pub fn amount_in(list: &[u64]) -> Option<u64>
    ensures { result ≡ amount_in list.now }
{
    match list {
        [] => None,
        [value] => Some(*value),
        _ => Some(LIMIT + 1),
    }
}

// The user's own value, that may be missing, with its arrival and the length of the gas day, which go for nothing where it is.
pub fn own_in(list: &[u64], arrival: u32, length: u32) -> Option<OwnValue>
    ensures { result ≡ own_in list.now arrival length }
{
    let kwh = amount_in(list)?;
    Some(OwnValue {
        kwh,
        arrival,
        length,
    })
}

// Tolls and the kinds of entries go by numbers, as C callers give them: one that has no meaning is to be refused by the call.
fn toll_in(number: u8) -> Toll
    ensures { result ≡ toll_in number }
{
    match number {
        1 => Toll::Toll34,
        _ => Toll::OtherToll,
    }
}

// f_c, out of its range by a toll's number that has no meaning.
fn factor_in(toll: u8, factor: u32) -> u32
    ensures { result ≡ factor_in toll factor }
{
    if toll <= 1 {
        factor
    } else {
        THOUSAND as u32 + 1
    }
}

// Contracted flows.
pub fn flows_in(toll: u8, yearly: &[u64], daily: &[u64], factor: u32) -> Flows
    ensures { result ≡ flows_in toll yearly.now daily.now factor }
{
    Flows {
        toll: toll_in(toll),
        yearly: amount_in(yearly),
        daily: amount_in(daily),
        factor: factor_in(toll, factor),
    }
}

// What a tag and a value stand for.
#[tactic(auto, unfolding(crate::specs::Lists::reading_in))]
fn reading_in(tag: u8, value: u64) -> Reading
    ensures { result ≡ reading_in tag value }
{
    match tag {
        0 => Reading::Nothing,
        1 => Reading::Real(value),
        2 => Reading::Estimated(value),
        3 => Reading::Own(value),
        _ => Reading::Real(LIMIT + 1),
    }
}

// A history in two lists that the caller lends, as many values as tags: an entry is what its tag and value stand for.
#[derive(Clone, Copy)]
pub struct HistoryLists<'a> {
    pub tags: &'a [u8],
    pub values: &'a [u64],
    pub ghost paired: { length tags.now ≡ length values.now },
}

impl<'a> Entries for HistoryLists<'a> {
    ghost entries = { λ h. entries_in h.tags.now h.values.now };

    fn count(&self) -> usize {
        self.tags.len()
    }

    fn reading(&self, i: usize) -> Reading {
        reading_in(self.tags[i], self.values[i])
    }
}
