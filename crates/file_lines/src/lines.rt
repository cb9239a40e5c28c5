// A line and a user of a day file, entered into the arrays of a point-day.
ghost use Rattle.std.specs.Prelude.{◌≡◌, ◌+◌, ◌≤◌, ◌<◌, eqb, length, IfOk};
ghost use Rattle.numbers.specs.Sums.{pick};
ghost use Rattle.numbers.specs.Refusals.{status_of};
ghost use Rattle.point_day.specs.Limits.{USERS, LIMIT};
ghost use Rattle.line.specs.Cell.{Limited};
ghost use Rattle.day_file.specs.Form.{LINE, u8, u16, u32};
ghost use Rattle.file_lines.specs.Pieces.{user_refusal, joined, line_refusal, offtake_with, lined, nothing_entered};

use day_file::{COEFFICIENT, CONSUMPTION, LINE};
use line::cells;
use line::cells::LineEntry;
use numbers::Refusal;
use point_day::{CELLS, USERS};

// A user's line as it stands in the file from a place on.
pub fn read_line(file: &[u8], at: usize, user: u16) -> LineEntry
    requires { at + LINE ≤ length file.now }
    ensures { result ≡ record { user = user; kind = u8 file.now at; consumption = u32 file.now (at + 1); coefficient = u16 file.now (at + 5) } }
{
    LineEntry {
        user,
        kind: file[at],
        consumption: wire::read::<4>(file, at + CONSUMPTION),
        coefficient: wire::read::<2>(file, at + COEFFICIENT),
    }
}

// The arrays of a point-day that a day file enters: its users' numbers, their consumption and losses by slot and kind, and the sum of both.
// (Arrays side by side, as a point-day has them.)
#[derive(Drop)]
pub struct Entering {
    pub users: [u16; USERS],
    pub consumption: [i64; CELLS],
    pub losses: [i64; CELLS],
    pub offtake: u64,
}

impl Entering {
    // No user.
    pub fn new() -> Entering
        ensures { result ≡ nothing_entered }
    {
        Entering {
            users: numbers::repeat(0),
            consumption: numbers::repeat(0),
            losses: numbers::repeat(0),
            offtake: 0,
        }
    }

    // A user joins in a slot, if fewer than `limit` have joined.
    pub fn join(&mut self, slot: usize, limit: usize, user: u16) -> Result<(), Refusal>
        requires { (slot ≤ limit) × (limit ≤ USERS) }
        ensures value { status_of result ≡ user_refusal limit user slot self.old.users }
        ensures after { self.new ≡ pick (eqb (status_of result) 0) (joined slot user self.old) self.old }
    {
        if user == 0 {
            return Err(Refusal::OutOfRange);
        }
        if state::slot_of(&self.users[..slot], user).is_some() {
            return Err(Refusal::AlreadyJoined);
        }
        if limit <= slot {
            return Err(Refusal::AllJoined);
        }
        self.users[slot] = user;
        Ok(())
    }

    // A line of the user of a slot; `offtake` is all consumption and losses of the lines before. The answer is the same after the line. (The
    // field `offtake` is left alone: the loop over the lines keeps the sum.)
    pub fn line(&mut self, slot: usize, entry: LineEntry, offtake: u64) -> Result<u64, Refusal>
        requires { (slot < USERS) × (offtake ≤ LIMIT) × Limited self.old.consumption × Limited self.old.losses }
        ensures value { status_of result ≡ line_refusal entry offtake }
        ensures sum { IfOk result (λ sum. sum ≡ offtake_with entry offtake) }
        ensures after { self.new ≡ pick (eqb (status_of result) 0) (lined slot entry self.old) self.old }
    {
        if !entry.is_right() {
            return Err(Refusal::OutOfRange);
        }
        let added = cells::line_cell(
            &mut self.consumption,
            &mut self.losses,
            slot,
            entry,
            offtake,
        )?;
        Ok(offtake + (entry.consumption + added))
    }
}
