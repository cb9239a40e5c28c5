// Little-endian numbers, and decimal text in a lent buffer.
#![tactic(auto)]

ghost use Rattle.std.specs.Prelude.{◌≡◌, ◌+◌, ◌*◌, ◌^◌, ◌≤◌, ◌<◌, length};
ghost use Rattle.wire.specs.Bytes.{little_endian};
ghost use Rattle.wire.specs.Text.{decimal, Added};

use itoa::Buffer;

// The number of N bytes from place i on, little-endian. (By places: the proof goes by them, and a loop over the reversed bytes has none.)
pub fn read<const N: usize>(s: &[u8], i: usize) -> u64
    requires { (N ≤ 8) × (i + N ≤ length s.now) }
    ensures { (result ≡ little_endian N s.now i) × (result < 256 ^ N) }
{
    let mut n = 0;
    for k in (0..N).rev() {
        n = 256 * n + s[i + k] as u64;
    }
    n
}

// Text in a lent buffer, from its start on.
#[derive(Drop)]
pub struct TextBuffer<'a> {
    pub buffer: &'a mut [u8],
    pub len: usize,
}

impl<'a> TextBuffer<'a> {
    // No text.
    pub fn new(buffer: &'a mut [u8]) -> TextBuffer<'a>
        ensures same_reference { result.buffer.ghost_name ≡ buffer.entry.ghost_name }
        ensures empty { (result.len ≡ 0) × (result.buffer.now ≡ buffer.old) }
    {
        TextBuffer { buffer, len: 0 }
    }

    // Text at the end.
    pub fn push(&mut self, text: &[u8])
        requires { self.old.len + length text.now ≤ length self.old.buffer.now }
        ensures same_reference { self.new.buffer.ghost_name ≡ self.old.buffer.ghost_name }
        ensures added { Added self.old.buffer.now self.old.len text.now self.new.buffer.now self.new.len }
    {
        let end = self.len + text.len();
        self.buffer[self.len..end].copy_from_slice(text);
        self.len = end;
    }

    // A signed number at the end.
    #[tactic(auto, using(crate::proofs::Text::decimal_is))]
    pub fn push_decimal(&mut self, x: i64)
        requires { self.old.len + 20 ≤ length self.old.buffer.now }
        ensures same_reference { self.new.buffer.ghost_name ≡ self.old.buffer.ghost_name }
        ensures added { Added self.old.buffer.now self.old.len (decimal x) self.new.buffer.now self.new.len }
        ensures bound { self.new.len ≤ self.old.len + 20 }
    {
        let mut buffer = Buffer::new();
        self.push(buffer.format(x).as_bytes());
    }
}
