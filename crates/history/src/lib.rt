// The history of a telemetered point: its entries, and the search for the last three real readings on days of the gas day's type.
#![tactic(auto)]

ghost use Rattle.std.specs.Prelude.{◌≡◌, true, List, ◌≤◌, ◌<◌, length};
ghost use Rattle.numbers.specs.Lists.{every};
ghost use Rattle.history.specs.History.{reading_right, value_of, entry_right, history_right, dated};
ghost use Rattle.history.specs.Search.{entry_at, found_in};
ghost use Rattle.history.specs.declared.Entry.{Entry};

use calendar::Calendar;
use supply::LIMIT;

// The most entries of a history.
pub const ENTRIES: usize = 400;

// The matches that end a search.
const MATCHES: u64 = 3;

// What stands in the history for a day.
#[derive(Clone, Copy)]
pub enum Reading {
    Nothing,
    Real(u64),
    Estimated(u64),
    Own(u64),
}

// A day of the history. (The form of document 01: an entry that holds an enum, and a history of 400 entries.)
#[derive(Clone, Copy)]
pub struct Entry {
    pub reading: Reading,
}

// The entries of a history that count, nearest day first, however they are held.
pub trait Entries {
    ghost entries: { Self → List Entry };

    // How many there are.
    fn count(&self) -> usize
        ensures { result ≡ length (entries self.now) };

    // What stands in the history at a place.
    fn reading(&self, i: usize) -> Reading
        requires { i < length (entries self.now) }
        ensures { result ≡ (entry_at (entries self.now) i).reading };
}

// Entries by value. (The form of document 01.)
impl<'a> Entries for &'a [Entry] {
    ghost entries = { λ es. es.now };

    fn count(&self) -> usize {
        self.len()
    }

    fn reading(&self, i: usize) -> Reading {
        self[i].reading
    }
}

// What a search finds: the sum and the number of the matches, the entries looked at, and whether any entry is real. (`real` flags none of
// the others: where nothing matches, it tells whether the consumer is new.)
#[derive(Clone, Copy)]
pub struct Found {
    pub sum: u64,
    pub matches: u64,
    pub looked: usize,
    pub real: bool,
}

// A reading's value, or 0.
fn value_of(reading: Reading) -> u64
    ensures { result ≡ value_of reading }
{
    match reading {
        Reading::Nothing => 0,
        Reading::Real(v) | Reading::Estimated(v) | Reading::Own(v) => v,
    }
}

// Whether a reading's value is in its range. (One test for all kinds: histories mix them.)
fn is_reading(reading: Reading) -> bool
    ensures { result ≡ reading_right reading }
{
    value_of(reading) <= LIMIT
}

// Whether each entry is in its range. (No early end, which would be a branch for each entry.)
fn are_entries<E: Entries>(history: &E) -> bool
    ensures { result ≡ every entry_right (E.entries history.now) }
{
    let mut right = true;
    for i in 0..history.count() {
        right &= is_reading(history.reading(i));
    }
    right
}

// Whether the history is as stated: not too long, and each entry in its range.
#[tactic(auto, unfolding(crate::specs::History::history_right))]
pub fn is_history<E: Entries>(day: u32, history: &E) -> bool
    ensures { result ≡ history_right day (length (E.entries history.now)) (E.entries history.now) }
{
    let count = history.count();
    count <= ENTRIES && count <= day as usize && are_entries(history)
}

// The same of a history by value: of an array, a count of the entries that count, which none above 400 can be.
#[tactic(auto, unfolding(crate::specs::History::history_right))]
pub fn is_counted(day: u32, history: &[Entry; ENTRIES], count: usize) -> bool
    ensures { result ≡ history_right day count history.now }
{
    count <= ENTRIES && is_history(day, &&history[..count])
}

// The search for the last three real readings on days of the gas day's type. (The form of document 01: one loop that yields what is found
// by `break`.)
pub fn search<E: Entries>(calendar: &Calendar, history: &E) -> Found
    requires { (length (E.entries history.now) ≤ calendar.now.day) × (every entry_right (E.entries history.now) ≡ true) }
    ensures { result ≡ found_in calendar.now.holidays.now calendar.now.day (length (E.entries history.now)) (dated calendar.now.day (E.entries history.now)) }
{
    let count = history.count();
    let wanted = calendar.day_type();
    let mut sum = 0;
    let mut matches = 0;
    let mut real = false;
    let mut looked = 0;
    loop {
        if matches == MATCHES || looked == count {
            break Found {
                sum,
                matches,
                looked,
                real,
            };
        }
        let reading = history.reading(looked);
        looked += 1;
        if let Reading::Real(kwh) = reading {
            real = true;
            if calendar.type_of(calendar.day - looked as u32) == wanted {
                sum += kwh;
                matches += 1;
            }
        }
    }
}
