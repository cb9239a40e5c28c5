// The sections of a day file entered into the arrays of a point-day.
#![tactic(auto)]

pub mod lines;

ghost use Rattle.std.specs.Prelude.{◌≡◌, map, ◌+◌, ◌<◌};
ghost use Rattle.numbers.specs.Lists.{flat};
ghost use Rattle.point_day.specs.Limits.{USERS};
ghost use Rattle.day_file.specs.Form.{pair_count, section_at, sections};
ghost use Rattle.day_file.specs.File.{section_calls};
ghost use Rattle.file_lines.specs.Entering.{day_of, Holds, UnlessRefused, ComesTo};

use day_file::{DayFile, LINE, USER};
use lines::Entering;
use numbers::Refusal;

impl Entering {
    // Section i of the file, of whose sections at most `limit` are taken: a user and its lines. (A parameter, as a mark of another file may have
    // another limit; of this one it is USERS.)
    fn section(&mut self, file: &DayFile, i: usize, limit: usize) -> Result<(), Refusal>
        requires { (i < pair_count file.now.bytes.now) × (limit ≡ USERS) × Holds i self.old }
        ensures unless_refused { UnlessRefused result (Holds (i + 1) self.new) }
        ensures comes_to { ComesTo result (section_calls file.now.bytes.now (section_at file.now.bytes.now i)) (day_of self.old i) (day_of self.new (i + 1)) }
    {
        let section = file.section(i);
        let user = wire::read::<2>(file.bytes, section.offset) as u16;
        self.join(i, limit, user)?;
        let lines = section.lines();
        // A sum in a local stays in a register, where one beside the arrays is read and written each time.
        let mut offtake = self.offtake;
        for j in 0..lines {
            let entry = lines::read_line(file.bytes, section.offset + USER + LINE * j, user);
            offtake = self.line(i, entry, offtake)?;
        }
        self.offtake = offtake;
        Ok(())
    }

    // All sections of the file, one after the other, where no user has joined; at most `limit` are taken.
    pub fn sections(&mut self, file: &DayFile, limit: usize) -> Result<(), Refusal>
        requires { (limit ≡ USERS) × Holds 0 self.old }
        ensures unless_refused { UnlessRefused result (Holds file.now.header.sections self.new) }
        ensures comes_to { ComesTo result (flat (map (section_calls file.now.bytes.now) (sections file.now.bytes.now))) (day_of self.old 0) (day_of self.new file.now.header.sections) }
    {
        for i in 0..file.header.sections {
            self.section(file, i, limit)?;
        }
        Ok(())
    }
}
