// The form of a day file, and what its header and pairs say.
#![tactic(auto)]

ghost use Rattle.std.specs.Prelude.{◌≡◌, true, ◌+◌, ◌*◌, ◌≤◌, ◌<◌, length, IfOk};
ghost use Rattle.numbers.specs.Sums.{pick};
ghost use Rattle.numbers.specs.Refusals.{MALFORMED, status_of};
ghost use Rattle.day_file.specs.Form.{HEADER, PAIR, USER, is_whole, line_count, end_of, header_of, pair_count, pairs_start, pairs_end, section_from, section_at, sections, sections_right, well_formed};

use numbers::Refusal;

// A day file has at most so many bytes.
pub const MOST_BYTES: usize = 65536;

// So many bytes of an input tell what its report is: one more than a day file may have, so that a longer input is known to be malformed.
pub const ENOUGH_BYTES: usize = MOST_BYTES + 1;

// The mark at its start.
const MARK: [u8; 4] = *b"REP1";

// Where the header's numbers stand, and where it ends and the pairs begin.
const GAS_DAY: usize = 4;

const EMISSION: usize = 8;

const DOWNSTREAM: usize = 12;

const PAIR_COUNT: usize = 16;

const HEADER: usize = 18;

// The bytes of a pair, and where in it the length stands.
const PAIR: usize = 8;

const SIZE: usize = 4;

// The bytes of a section's user, and of a line; where in a line consumption and coefficient stand.
pub const USER: usize = 2;

pub const LINE: usize = 7;

pub const CONSUMPTION: usize = 1;

pub const COEFFICIENT: usize = 5;

// What the header says: gas day, emission, downstream emission, how many sections there are; and where their pairs begin.
#[derive(Clone, Copy)]
pub struct Header {
    pub day: u64,
    pub emission: u64,
    pub downstream: u64,
    pub sections: usize,
    pub pairs: usize,
}

// A pair: where a section begins, and its length.
#[derive(Clone, Copy)]
pub struct Section {
    pub offset: usize,
    pub size: usize,
}

impl Section {
    // Whether it is whole: a user, then lines.
    fn is_whole(self) -> bool
        ensures { result ≡ is_whole self }
    {
        USER <= self.size && (self.size - USER) % LINE == 0
    }

    // How many lines it has.
    pub fn lines(self) -> usize
        requires { USER ≤ self.size }
        ensures { result ≡ line_count self }
    {
        (self.size - USER) / LINE
    }
}

// A day file: its bytes and its header.
#[derive(Clone, Copy)]
pub struct DayFile<'a> {
    pub bytes: &'a [u8],
    pub header: Header,
    pub ghost right: { well_formed bytes.now ≡ true },
    pub ghost read: { header ≡ header_of bytes.now },
}

impl DayFile<'_> {
    // The section of pair i.
    pub fn section(&self, i: usize) -> Section
        requires { i < pair_count self.now.bytes.now }
        ensures value { result ≡ section_at self.now.bytes.now i }
        ensures inside { (USER ≤ result.size) × (end_of result ≤ length self.now.bytes.now) }
    {
        section_at(self.bytes, self.header.pairs, i)
    }
}

// The header of a file that is long enough for one.
fn read_header(file: &[u8]) -> Header
    requires { HEADER ≤ length file.now }
    ensures { (result ≡ header_of file.now) × (result.sections < 65536) }
{
    let sections = wire::read::<2>(file, PAIR_COUNT) as usize;
    Header {
        day: wire::read::<4>(file, GAS_DAY),
        emission: wire::read::<4>(file, EMISSION),
        downstream: wire::read::<4>(file, DOWNSTREAM),
        sections,
        pairs: HEADER,
    }
}

// The section of pair i, of pairs that begin at a place.
pub fn section_at(file: &[u8], pairs: usize, i: usize) -> Section
    requires { pairs + PAIR * (i + 1) ≤ length file.now }
    ensures { (result ≡ section_from file.now pairs i) × (result.offset < 4294967296) × (result.size < 4294967296) }
{
    let at = pairs + PAIR * i;
    let offset = wire::read::<4>(file, at) as usize;
    let size = wire::read::<4>(file, at + SIZE) as usize;
    Section { offset, size }
}

// Whether the pairs give whole sections inside the file, each from the end of the one before on, the first from the end of the pairs on.
fn are_sections(file: &[u8], pairs: usize, count: usize) -> bool
    requires { (pairs ≡ pairs_start file.now) × (count ≡ pair_count file.now) × (pairs_end file.now ≤ length file.now) }
    ensures { result ≡ sections_right file.now (sections file.now) }
{
    let mut end = pairs + PAIR * count;
    for i in 0..count {
        let section = section_at(file, pairs, i);
        if section.offset < end || !section.is_whole() {
            return false;
        }
        end = section.offset + section.size;
        if file.len() < end {
            return false;
        }
    }
    true
}

// The day file that the bytes are. Their form is tested, and their header read, here and nowhere else.
pub fn decode(file: &[u8]) -> Result<DayFile, Refusal>
    ensures status { status_of result ≡ pick (well_formed file.now) 0 MALFORMED }
    ensures bytes { IfOk result (λ d. d.bytes.now ≡ file.now) }
{
    if MOST_BYTES < file.len() || file.len() < HEADER || !file.starts_with(&MARK) {
        return Err(Refusal::Malformed);
    }
    let header = read_header(file);
    if file.len() < header.pairs + PAIR * header.sections
        || !are_sections(file, header.pairs, header.sections)
    {
        return Err(Refusal::Malformed);
    }
    Ok(DayFile {
        bytes: file,
        header,
    })
}
