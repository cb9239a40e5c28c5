// Proration: the sum of the weights, the whole units and remainders, and which remainder is served before which.
#![tactic(auto)]

ghost use Rattle.std.specs.Prelude.{◌≡◌, ◌++◌, ◌≤◌, ◌<◌, length, drop};
ghost use Rattle.numbers.specs.Sums.{sum, table, at, total, Bounded};
ghost use Rattle.proration.specs.Proration.{PARTIES, LARGEST_AMOUNT, LARGEST_WEIGHT, ahead, floor, rem, before};

// The most parties of a split.
pub const PARTIES: usize = 366;

// The sum of the weights, W.
pub fn weight_total(ws: &[u64]) -> u64
    requires { (length ws.now ≤ PARTIES) × Bounded LARGEST_WEIGHT ws.now }
    ensures { result ≡ total ws.now }
{
    ws.iter().sum()
}

// The weights of a split, each at most the largest, with their sum, W. (Handed on by value: behind a reference the sum would be read again
// after each write to the shares.)
#[derive(Clone, Copy)]
pub struct Weights<'a> {
    pub each: &'a [u64],
    pub sum: u64,
    pub ghost summed: { sum ≡ total each.now },
    pub ghost bounded: { Bounded LARGEST_WEIGHT each.now },
}

impl<'a> Weights<'a> {
    // These weights, with their sum added up.
    pub fn of(each: &'a [u64]) -> Weights<'a>
        requires { (length each.now ≤ PARTIES) × Bounded LARGEST_WEIGHT each.now }
        ensures { result.each.now ≡ each.now }
    {
        Weights {
            each,
            sum: weight_total(each),
        }
    }
}

// A party that waits for a unit: its remainder, and its key, which tells equal remainders apart.
#[derive(Clone, Copy)]
pub struct Party {
    pub rem: u64,
    pub key: u64,
}

impl Party {
    // Whether it is served before the other.
    pub fn goes_before(self, other: Party) -> bool
        ensures { result ≡ ahead self.rem self.key other.rem other.key }
    {
        if self.key < other.key {
            other.rem <= self.rem
        } else {
            other.rem < self.rem
        }
    }
}

// The parties that wait for a unit. Remainders and keys are two lists, as the callers have them: keys are lent, remainders made.
#[derive(Clone, Copy)]
pub struct Parties<'a> {
    pub rems: &'a [u64],
    pub keys: &'a [u64],
    pub ghost keyed: { length rems.now ≤ length keys.now },
}

impl<'a> Parties<'a> {
    // The party at a place.
    pub fn at(&self, i: usize) -> Party
        requires { i < length self.now.rems.now }
        ensures { (result.rem ≡ at self.now.rems.now i) × (result.key ≡ at self.now.keys.now i) }
    {
        Party {
            rem: self.rems[i],
            key: self.keys[i],
        }
    }

    // How many parties are served before this one.
    pub fn count_ahead(&self, party: Party) -> u64
        ensures { result ≡ before (at self.now.rems.now) (at self.now.keys.now) (length self.now.rems.now) party.rem party.key }
    {
        let mut count: u64 = 0;
        for j in 0..self.rems.len() {
            count += u64::from(self.at(j).goes_before(party));
        }
        count
    }
}

// The whole units of each party, and its remainder; returns the sum of the whole units.
pub fn floors(amount: u64, weights: Weights, shares: &mut [u64], rems: &mut [u64]) -> u64
    requires amount_bound { (amount ≤ LARGEST_AMOUNT) × (0 < weights.sum) }
    requires ws_in_bounds { (length weights.each.now ≤ length shares.old) × (length rems.old ≡ length weights.each.now) }
    ensures value { result ≡ sum (floor amount weights.entry.sum (at weights.entry.each.now)) (length weights.entry.each.now) }
    ensures shares_after { shares.new ≡ table (floor amount weights.entry.sum (at weights.entry.each.now)) (length weights.entry.each.now) ++ drop (length weights.entry.each.now) shares.old }
    ensures rems_after { rems.new ≡ table (rem amount weights.entry.sum (at weights.entry.each.now)) (length weights.entry.each.now) }
{
    let mut given: u64 = 0;
    for i in 0..weights.each.len() {
        let x = amount * weights.each[i];
        let f = x / weights.sum;
        shares[i] = f;
        rems[i] = x % weights.sum;
        given += f;
    }
    given
}
