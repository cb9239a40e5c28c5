// The report on a day file, from its bytes to the bytes of the text.
#![tactic(auto)]

pub mod allotment;

ghost use Rattle.std.specs.Prelude.{◌≡◌, leb, length};
ghost use Rattle.numbers.specs.Sums.{pick};
ghost use Rattle.calendar.specs.Answers.{answer_of};
ghost use Rattle.io.specs.Counts.{IsPrefixLen};
ghost use Rattle.wire.specs.Text.{written};
ghost use Rattle.day_file.specs.Report.{report};
ghost use Rattle.day_file.specs.Text.{text};
ghost use Rattle.report.specs.Room.{REPORT_ROOM};
ghost use Rattle.day_report.specs.Answered.{report_call, buffer_after, size_of};

use calendar::LAST_DAY;
use numbers::Refusal;
use report::refusal;

// Room for the longest report.
pub const REPORT_ROOM: usize = 8192;

// Writes the report on a day file: the calls that it stands for, on a fresh point-day, and the first refusal is the answer; then 14 for a
// buffer with less room than the longest report needs. What is refused writes nothing. The answer is how many bytes the text has.
pub fn write_report(file: &[u8], out: &mut [u8]) -> Result<usize, Refusal>
    ensures result_value { answer_of result ≡ size_of (report_call file.now (length out.old)) }
    ensures out_after { out.new ≡ buffer_after (report_call file.now (length out.old)) out.old }
{
    let file = day_file::decode(file)?;
    let header = file.header;
    if (LAST_DAY as u64) < header.day {
        return Err(Refusal::OutOfRange);
    }
    if !state::emission_right(header.emission, header.downstream) {
        return Err(Refusal::OutOfRange);
    }
    allotment::enter(&file, out)
}

// Writes the report on a day file, or the text of its refusal, into a buffer, and answers how many bytes it has. In a buffer with less
// room than the longest report needs nothing is written, and the answer is 0.
pub fn day_report(file: &[u8], out: &mut [u8]) -> usize
    ensures value { result ≡ pick (leb REPORT_ROOM (length out.old)) (length (text (report file.now))) 0 }
    ensures out_after { out.new ≡ pick (leb REPORT_ROOM (length out.old)) (written out.old 0 (text (report file.now))) out.old }
    ensures prefix_len { IsPrefixLen result out.new }
{
    if out.len() < REPORT_ROOM {
        return 0;
    }
    match write_report(file, out) {
        Err(refusal) => refusal::put_refused(out, u8::from(refusal)),
        Ok(size) => size,
    }
}
