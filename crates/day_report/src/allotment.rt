// The sections of a day file entered into a measured point-day, which is allotted and reported.
ghost use Rattle.std.specs.Prelude.{◌≡◌, true, ◌∷◌, [], ◌≤◌, length};
ghost use Rattle.point_day.specs.Day.{emission_right};
ghost use Rattle.point_day.specs.Day.{metered};
ghost use Rattle.calendar.specs.Days.{LAST_DAY};
ghost use Rattle.calendar.specs.Answers.{answer_of};
ghost use Rattle.day_book.specs.Run.{allot};
ghost use Rattle.day_file.specs.Report.{in_order};
ghost use Rattle.file_lines.specs.Entering.{day_of, Holds};
ghost use Rattle.day_report.specs.Entered.{entered_and_allotted};
ghost use Rattle.day_report.specs.Answered.{text_for, buffer_after, size_of};

use super::REPORT_ROOM;
use allot::shares;
use day_file::{DayFile, Header};
use file_lines::lines::Entering;
use numbers::Refusal;
use point_day::USERS;
use report::lines::Slots;

// Allots a point-day that is entered, and writes its report. The report needs no more than the users' shares of the balance: their kinds add
// up to them, and no whole amount comes near refusal 12. Nothing refuses after the room is tested, and nothing is written before.
fn allot(out: &mut [u8], header: Header, entered: &Entering) -> Result<usize, Refusal>
    requires { (header.day ≤ LAST_DAY) × (emission_right header.emission header.downstream ≡ true) × Holds header.sections entered.now }
    ensures result_value { answer_of result ≡ size_of (text_for (length out.old) (in_order header.day (allot ∷ []) (day_of entered.now header.sections (metered header.emission header.downstream)))) }
    ensures out_after { out.new ≡ buffer_after (text_for (length out.old) (in_order header.day (allot ∷ []) (day_of entered.now header.sections (metered header.emission header.downstream)))) out.old }
{
    let n = header.sections;
    if n == 0 {
        return Err(Refusal::NoUser);
    }
    if out.len() < REPORT_ROOM {
        return Err(Refusal::ShortBuffer);
    }
    let users = &entered.users;
    let consumption = &entered.consumption;
    let losses = &entered.losses;
    let net = header.emission - header.downstream;
    let balance = net as i64 - entered.offtake as i64;
    let mut shares = numbers::repeat::<_, USERS>(0);
    shares::share_out(balance, consumption, losses, &users[..n], &mut shares);
    let slots = Slots {
        count: n,
        users,
        consumption,
        losses,
        shares: &shares,
    };
    Ok(report::put_allotted(out, header.day, net, entered.offtake, &slots))
}

// Enters the sections of a file into a measured point-day without users, allots it, and writes the report.
pub fn enter(file: &DayFile, out: &mut [u8]) -> Result<usize, Refusal>
    requires { let h = file.now.header in (h.day ≤ LAST_DAY) × (emission_right h.emission h.downstream ≡ true) }
    ensures result_value { let h = file.now.header in answer_of result ≡ size_of (text_for (length out.old) (entered_and_allotted file.now.bytes.now h.day (metered h.emission h.downstream))) }
    ensures out_after { let h = file.now.header in out.new ≡ buffer_after (text_for (length out.old) (entered_and_allotted file.now.bytes.now h.day (metered h.emission h.downstream))) out.old }
{
    let mut entered = Entering::new();
    entered.sections(file, USERS)?;
    allot(out, file.header, &entered)
}
