// The text of a refusal.
ghost use Rattle.std.specs.Prelude.{◌≡◌, ◌≤◌, length};
ghost use Rattle.wire.specs.Text.{written};
ghost use Rattle.day_file.specs.Report.{refused};
ghost use Rattle.day_file.specs.Text.{text};
ghost use Rattle.report.specs.Room.{REPORT_ROOM};

use super::lines;
use wire::TextBuffer;

// The text of a refusal, in a lent buffer; the answer is how many bytes it has.
pub fn put_refused(out: &mut [u8], number: u8) -> usize
    requires { REPORT_ROOM ≤ length out.old }
    ensures value { result ≡ length (text (refused number)) }
    ensures out_after { out.new ≡ written out.old 0 (text (refused number)) }
{
    let mut text = TextBuffer::new(out);
    lines::put_line(&mut text, b"refused", &[i64::from(number)]);
    text.len
}
