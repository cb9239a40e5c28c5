// Many lines on a point-day in plain numbers, in place: the point-day is tested once, and the sum of its consumption and losses is kept
// from line to line.
#![tactic(auto)]

ghost use Rattle.std.specs.Prelude.{◌≡◌, true, [], ◌∷◌, ◌≤◌, ◌<◌, eqb, pos, length, take};
ghost use Rattle.numbers.specs.Sums.{pick, at};
ghost use Rattle.numbers.specs.Refusals.{status_of};
ghost use Rattle.point_day.specs.Limits.{USERS};
ghost use Rattle.state.specs.Places.{SlotOf};
ghost use Rattle.line.specs.Lined.{Stands};
ghost use Rattle.plain_day.specs.Layout.{is_readable, day_in};
ghost use Rattle.plain_day.specs.Plain.{plain};
ghost use Rattle.plain_day.specs.Lines.{lines_in, line_calls, same_lengths, plain_lines};
ghost use Rattle.many_lines.specs.Many.{HINTS, in_numbers};

use line::cells::LineEntry;
use numbers::Refusal;
use plain_day::writes;

// ---- A user's slot

// Hints where a user may stand, by the remainder of its number. (A table and no map: nothing is allocated. A hint is tested before it is
// used, so 0 does where there is none.)
const HINTS: usize = 1024;

// Slots by the remainder of the user number; of two users with the same remainder the later one is hinted at. (The cast
// is one number of a table of bytes: a slot is below 64.)
fn hints_of(slots: &[u16]) -> [u8; HINTS]
    requires { length slots.now ≤ USERS }
    ensures { length result ≡ HINTS }
{
    let mut hints = [0; HINTS];
    for (i, &slot) in slots.iter().enumerate() {
        hints[usize::from(slot) % HINTS] = i as u8;
    }
    hints
}

// The slot of the user, if it has joined: the hint is tried first.
fn slot_near(hints: &[u8], slots: &[u16], user: u16) -> Option<usize>
    requires { length hints.now ≡ HINTS }
    ensures { SlotOf user slots.now result }
{
    let near = usize::from(hints[usize::from(user) % HINTS]);
    if near < slots.len() && slots[near] == user {
        return Some(near);
    }
    state::slot_of(slots, user)
}

// ---- The lines

// Lines in four lists of equal length. (Not a list of lines: callers in other languages lend the lists, and nothing is copied.)
#[derive(Clone, Copy)]
struct LineLists<'a> {
    users: &'a [u16],
    kinds: &'a [u8],
    consumptions: &'a [u64],
    coefficients: &'a [u64],
    ghost equal_lengths: { same_lengths users.now kinds.now consumptions.now coefficients.now ≡ true },
}

impl<'a> LineLists<'a> {
    // The arguments of line i.
    fn entry(&self, i: usize) -> LineEntry
        requires { i < length self.now.users.now }
        ensures { (result.user ≡ at self.now.users.now i) × (result.kind ≡ at self.now.kinds.now i) × (result.consumption ≡ at self.now.consumptions.now i) × (result.coefficient ≡ at self.now.coefficients.now i) }
    {
        LineEntry {
            user: self.users[i],
            kind: self.kinds[i],
            consumption: self.consumptions[i],
            coefficient: self.coefficients[i],
        }
    }
}

fn same_lengths<'a>(
    users: &'a [u16],
    kinds: &'a [u8],
    consumptions: &'a [u64],
    coefficients: &'a [u64],
) -> bool
    ensures { result ≡ same_lengths users.now kinds.now consumptions.now coefficients.now }
{
    users.len() == kinds.len()
        && users.len() == consumptions.len()
        && users.len() == coefficients.len()
}

// ---- Line after line

// How lines ended, by a refusal or with the last; how many were accepted, and the losses that they added.
#[derive(Clone, Copy)]
pub struct LinesEntered {
    pub end: Result<(), Refusal>,
    pub accepted: u64,
    pub losses: u64,
}

fn entered(end: Result<(), Refusal>, accepted: usize, losses: u64) -> LinesEntered
    ensures { (result.end ≡ end) × (result.accepted ≡ accepted) × (result.losses ≡ losses) }
{
    LinesEntered {
        end,
        accepted: accepted as u64,
        losses,
    }
}

// Line after line until one is refused, on a taken point-day that is entering, and of which these users have joined. (A call of its own: its
// loop has the registers to itself.)
#[inline(never)]
fn enter_lines<'a>(
    day: &mut [i64],
    joined: &'a [u16],
    offtake: u64,
    lines: &'a LineLists<'a>,
) -> LinesEntered
    requires taken { (is_readable day.old ≡ true) × Stands (day_in day.old).users (length joined.now) offtake (day_in day.old) }
    requires joined { joined.now ≡ take (length joined.now) (day_in day.old).users }
    ensures { plain (status_of result.end) (pos result.accepted ∷ pos result.losses ∷ []) day.new ≡ in_numbers (line_calls (lines_in lines.now.users.now lines.now.kinds.now lines.now.consumptions.now lines.now.coefficients.now) (day_in day.old)) day.old }
{
    let hints = hints_of(joined);
    let mut sum = offtake;
    let mut losses: u64 = 0;
    for i in 0..lines.users.len() {
        let entry = lines.entry(i);
        let slot = slot_near(&hints, joined, entry.user);
        match line::slot_test(slot, sum, entry) {
            Err(refusal) => {
                return entered(Err(refusal), i, losses);
            }
            Ok(effect) => {
                writes::add(day, effect.place, entry.consumption, effect.added);
                sum += entry.consumption + effect.added;
                losses += effect.added;
            }
        }
    }
    entered(Ok(()), lines.users.len(), losses)
}

// ---- Many lines

// Lines on a point-day that is not entering: the first is refused.
fn refuse_first(n: usize) -> Result<(), Refusal>
    ensures { status_of result ≡ pick (eqb n 0) 0 1 }
{
    if n == 0 {
        Ok(())
    } else {
        Err(Refusal::WrongStage)
    }
}

// Many lines: line after line until one is refused; how many were accepted, and the losses that they added, are given in every case.
#[tactic(auto, using(taken::proofs::Facts::known_few))]
pub fn lines<'a>(
    day: &mut [i64],
    users: &'a [u16],
    kinds: &'a [u8],
    consumptions: &'a [u64],
    coefficients: &'a [u64],
) -> LinesEntered
    ensures { plain (status_of result.end) (pos result.accepted ∷ pos result.losses ∷ []) day.new ≡ plain_lines users.now kinds.now consumptions.now coefficients.now day.old }
{
    if !same_lengths(users, kinds, consumptions, coefficients) {
        return entered(Err(Refusal::OutOfRange), 0, 0);
    }
    match plain_day::test_numbers(day) {
        Err(refusal) => entered(Err(refusal), 0, 0),
        Ok(state) => {
            if state.allotted {
                return entered(refuse_first(users.len()), 0, 0);
            }
            let lines = LineLists {
                users,
                kinds,
                consumptions,
                coefficients,
            };
            let joined = &state.users[..state.count];
            let offtake = state.sum as u64;
            enter_lines(day, joined, offtake, &lines)
        }
    }
}
