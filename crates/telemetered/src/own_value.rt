// A user's own value: when it arrived, and whether it is used.
ghost use Rattle.std.specs.Prelude.{◌≡◌};
ghost use Rattle.telemetered.specs.OwnValue.{value_sent, arrival_right, value_to_use};

// The user's own value as it was sent: the minute of its arrival, counted from the start of the gas day, and the length of that day in
// minutes.
#[derive(Clone, Copy, Debug, PartialEq, Eq)]
pub struct OwnValue {
    pub kwh: u64,
    pub arrival: u32,
    pub length: u32,
}

// A gas day has 23, 24 or 25 hours.
const LENGTHS: [u32; 3] = [1380, 1440, 1500];

// A value that is used came at least so many minutes before the gas day ended.
const NOTICE: u32 = 720;

// The value as it was sent, in time or not.
pub fn value_sent(own: Option<OwnValue>) -> Option<u64>
    ensures { result ≡ value_sent own }
{
    Some(own?.kwh)
}

// Whether the gas day has one of its lengths, and the value arrived by its end; nothing is asked of a value that was not sent.
pub fn is_arrival(own: Option<OwnValue>) -> bool
    ensures { result ≡ arrival_right own }
{
    let Some(value) = own else {
        return true;
    };
    LENGTHS.contains(&value.length) && value.arrival <= value.length
}

// The value to use: one that came too late is treated as not sent.
pub fn value_to_use(own: Option<OwnValue>) -> Option<u64>
    ensures { result ≡ value_to_use own }
{
    let value = own?;
    if value.arrival <= value.length.saturating_sub(NOTICE) {
        Some(value.kwh)
    } else {
        None
    }
}
