// The text of a report in a lent buffer.
#![tactic(auto)]

pub mod lines;
pub mod refusal;

ghost use Rattle.std.specs.Prelude.{◌≡◌, ◌+◌, ◌*◌, ◌≤◌, length, take};
ghost use Rattle.numbers.specs.Sums.{table, totalZ};
ghost use Rattle.numbers.specs.Lists.{flat};
ghost use Rattle.point_day.specs.Limits.{USERS, KINDS, CELLS, LIMIT};
ghost use Rattle.state.specs.Places.{Small};
ghost use Rattle.calendar.specs.Days.{LAST_DAY};
ghost use Rattle.wire.specs.Text.{written, Added};
ghost use Rattle.report.specs.Room.{REPORT_ROOM};
ghost use Rattle.report.specs.Lines.{LONGEST_LINE, slot_line};
ghost use Rattle.report.specs.Allotted.{shares_text};

use lines::Slots;
use point_day::{CELLS, KINDS};
use wire::TextBuffer;

// The amounts of n slots over all kinds.
fn of_slots(xs: &[i64; CELLS], n: usize) -> i64
    requires { (n ≤ USERS) × Small xs.now }
    ensures { result ≡ totalZ (take (KINDS * n) xs.now) }
{
    numbers::sum_of(&xs[..KINDS * n])
}

// The lines of all users.
fn put_users(text: &mut TextBuffer, slots: &Slots)
    requires { (slots.now.count ≤ USERS) × (text.old.len + LONGEST_LINE * slots.now.count ≤ length text.old.buffer.now) }
    ensures same_reference { text.new.buffer.ghost_name ≡ text.old.buffer.ghost_name }
    ensures added { Added text.old.buffer.now text.old.len (flat (table (slot_line slots.now.users.now slots.now.consumption.now slots.now.losses.now slots.now.shares.now) slots.now.count)) text.new.buffer.now text.new.len }
    ensures bound { text.new.len ≤ text.old.len + LONGEST_LINE * slots.now.count }
{
    for slot in 0..slots.count {
        slots.put_user(text, slot);
    }
}

// The text of an allotted point-day of these users, in a lent buffer; the answer is how many bytes it has.
pub fn put_allotted(out: &mut [u8], gas_day: u64, net: u64, offtake: u64, slots: &Slots) -> usize
    requires { (REPORT_ROOM ≤ length out.old) × (gas_day ≤ LAST_DAY) × (net ≤ LIMIT) × (offtake ≤ LIMIT) × (slots.now.count ≤ USERS) }
    ensures value { result ≡ length (shares_text gas_day net offtake slots.now.count slots.now.users.now slots.now.consumption.now slots.now.losses.now slots.now.shares.now) }
    ensures out_after { out.new ≡ written out.old 0 (shares_text gas_day net offtake slots.now.count slots.now.users.now slots.now.consumption.now slots.now.losses.now slots.now.shares.now) }
{
    let (net, offtake) = (net as i64, offtake as i64);
    let c = of_slots(slots.consumption, slots.count);
    let figures = [gas_day as i64, net, c, offtake - c, net - offtake];
    let mut text = TextBuffer::new(out);
    lines::put_line(&mut text, b"point", &figures);
    put_users(&mut text, slots);
    text.len
}
