// A line of a report: a word and numbers; the line of a user.
ghost use Rattle.std.specs.Prelude.{◌≡◌, ◌+◌, ◌*◌, ◌≤◌, ◌<◌, length};
ghost use Rattle.point_day.specs.Limits.{USERS, CELLS};
ghost use Rattle.state.specs.Places.{Small};
ghost use Rattle.wire.specs.Text.{Added};
ghost use Rattle.day_file.specs.Text.{text_line};
ghost use Rattle.report.specs.Lines.{NUMBER, LONGEST_LINE, of_slot, slot_line};

use point_day::{CELLS, KINDS, USERS};
use wire::TextBuffer;

// A line: a word, numbers, each after a space, and a line feed. (Inline at each of its three calls, whose words are constants: a word of a
// length that is not known is moved by `memmove`, which the archive would need from outside.)
#[inline(always)]
pub fn put_line(text: &mut TextBuffer, word: &[u8], numbers: &[i64])
    requires { text.old.len + length word.now + NUMBER * length numbers.now + 1 ≤ length text.old.buffer.now }
    ensures same_reference { text.new.buffer.ghost_name ≡ text.old.buffer.ghost_name }
    ensures added { Added text.old.buffer.now text.old.len (text_line word.now numbers.now) text.new.buffer.now text.new.len }
    ensures bound { text.new.len ≤ text.old.len + length word.now + NUMBER * length numbers.now + 1 }
{
    text.push(word);
    for &number in numbers {
        text.push(b" ");
        text.push_decimal(number);
    }
    text.push(b"\n");
}

// A slot's amounts over all kinds.
fn of_slot(xs: &[i64; CELLS], slot: usize) -> i64
    requires { (slot < USERS) × Small xs.now }
    ensures { result ≡ of_slot xs.now slot }
{
    let start = KINDS * slot;
    numbers::sum_of(&xs[start..start + KINDS])
}

// What a report tells of a point-day's users, by slots: how many there are, their numbers, what lines left of each kind, and their shares of
// the balance. (Whole arrays and a count, as a point-day has them.)
#[derive(Clone, Copy)]
pub struct Slots<'a> {
    pub count: usize,
    pub users: &'a [u16; USERS],
    pub consumption: &'a [i64; CELLS],
    pub losses: &'a [i64; CELLS],
    pub shares: &'a [i64; USERS],
    pub ghost small: { Small consumption.now × Small losses.now × Small shares.now },
}

impl Slots<'_> {
    // The line of the user of a slot, whose balance over all kinds is its share.
    pub fn put_user(&self, text: &mut TextBuffer, slot: usize)
        requires { (slot < USERS) × (text.old.len + LONGEST_LINE ≤ length text.old.buffer.now) }
        ensures same_reference { text.new.buffer.ghost_name ≡ text.old.buffer.ghost_name }
        ensures added { Added text.old.buffer.now text.old.len (slot_line self.now.users.now self.now.consumption.now self.now.losses.now self.now.shares.now slot) text.new.buffer.now text.new.len }
        ensures bound { text.new.len ≤ text.old.len + LONGEST_LINE }
    {
        let c = of_slot(self.consumption, slot);
        let l = of_slot(self.losses, slot);
        let share = self.shares[slot];
        let number = i64::from(self.users[slot]);
        put_line(text, b"user", &[number, c, l, share, c + l + share]);
    }
}
