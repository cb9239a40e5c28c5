// A line at its cell: its ranges, the losses it adds, and the limit on consumption and losses.
ghost use Rattle.std.specs.Prelude.{◌≡◌, ◌≤◌, ◌<◌};
ghost use Rattle.numbers.specs.Sums.{pick};
ghost use Rattle.point_day.specs.Limits.{USERS, KINDS, CELLS, LIMIT, COEFFICIENT};
ghost use Rattle.point_day.specs.Calls.{line_right};
ghost use Rattle.line.specs.Cell.{line_losses, past_limit, line_on, place, Limited};
ghost use Rattle.state.specs.Places.{more};

use numbers::Refusal;
use point_day::{CELLS, COEFFICIENT, KINDS, LIMIT, PARTS, USERS};

// The arguments of a line: a user and a kind, their consumption in kWh, and the losses on it in hundred-thousandths. (The kind is a number:
// the call refuses one that is none, in its place among the tests.)
#[derive(Clone, Copy, Debug, PartialEq, Eq)]
pub struct LineEntry {
    pub user: u16,
    pub kind: u8,
    pub consumption: u64,
    pub coefficient: u64,
}

impl LineEntry {
    // Whether the arguments are in their ranges.
    #[tactic(auto, unfolding(point_day::specs::Calls::line_right))]
    pub fn is_right(self) -> bool
        ensures { result ≡ line_right self.user self.kind self.consumption self.coefficient }
    {
        self.user != 0
            && 1 <= self.kind
            && self.kind as usize <= KINDS
            && self.consumption <= LIMIT
            && self.coefficient <= COEFFICIENT
    }

    // The losses that the line adds.
    pub fn losses(self) -> u64
        requires { (self.consumption ≤ LIMIT) × (self.coefficient ≤ COEFFICIENT) }
        ensures { (result ≡ line_losses self.consumption self.coefficient) × (result ≤ LIMIT) }
    {
        numbers::nearest(self.consumption * self.coefficient, PARTS)
    }

    // The losses that the line adds, unless they and its consumption would take `offtake`, all consumption and losses so far, past the limit.
    pub fn losses_within(self, offtake: u64) -> Result<u64, Refusal>
        requires { (self.consumption ≤ LIMIT) × (self.coefficient ≤ COEFFICIENT) × (offtake ≤ LIMIT) }
        ensures { result ≡ line_on offtake self.consumption self.coefficient }
    {
        let added = self.losses();
        if LIMIT < offtake + (self.consumption + added) {
            return Err(Refusal::AboveLimit);
        }
        Ok(added)
    }

    // The cell of the line's kind, of the user of a slot.
    pub fn place(self, slot: usize) -> usize
        requires { (slot < USERS) × (1 ≤ self.kind) × (self.kind ≤ KINDS) }
        ensures { (result ≡ place slot self.kind) × (result < CELLS) }
    {
        KINDS * slot + (self.kind as usize - 1)
    }
}

// A line at its cell of the user of a slot, on lent arrays; `offtake` is all their consumption and losses so far. The answer is the losses
// that it added.
pub fn line_cell(
    consumption: &mut [i64; CELLS],
    losses: &mut [i64; CELLS],
    slot: usize,
    entry: LineEntry,
    offtake: u64,
) -> Result<u64, Refusal>
    requires slot_bound { (slot < USERS) × (1 ≤ entry.kind) × (entry.kind ≤ KINDS) × (entry.consumption ≤ LIMIT) × (entry.coefficient ≤ COEFFICIENT) × (offtake ≤ LIMIT) }
    requires limited { Limited consumption.old × Limited losses.old }
    ensures value { result ≡ line_on offtake entry.consumption entry.coefficient }
    ensures consumption_after { consumption.new ≡ pick (past_limit offtake entry.consumption entry.coefficient) consumption.old (more (place slot entry.kind) entry.consumption consumption.old) }
    ensures losses_after { losses.new ≡ pick (past_limit offtake entry.consumption entry.coefficient) losses.old (more (place slot entry.kind) (line_losses entry.consumption entry.coefficient) losses.old) }
{
    let added = entry.losses_within(offtake)?;
    let i = entry.place(slot);
    state::add_at(consumption, i, entry.consumption);
    state::add_at(losses, i, added);
    Ok(added)
}
