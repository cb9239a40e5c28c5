// Numbers read from the input one after the other, little-endian, and the buffer lent to a call.
ghost use Rattle.std.specs.Prelude.{◌≡◌, ◌↔◌, ◌++◌, List, ℕ, ℤ, pos, ◌+◌, ◌*◌, ◌≤◌, ◌<◌, length, take, drop, IsTrue, IsOk, IfOk, OnOk, OnErr};
ghost use Rattle.std.specs.Int.{w32, cast_signed};
ghost use Rattle.numbers.specs.Sums.{bit, table};
ghost use Rattle.wire.specs.Bytes.{little_endian, signed_64};
ghost use Rattle.console.specs.Input.{spelled_in, Onward, MOST_LENT, lent};

use std::marker::Model;

// The most numbers of a buffer that a program lends to a call.
pub const MOST_LENT: usize = 2000;

// What is cut short, or has no meaning.
#[derive(Clone, Copy, Debug, PartialEq, Eq)]
pub struct Malformed;

// What is still to be read of an input.
#[derive(Drop)]
pub struct Input<'a> {
    rest: &'a [u8],
}

impl<'a> Model for Input<'a> {
    ghost Value = { List ℕ };

    ghost view = { λ input. input.rest.now };
}

impl<'a> Input<'a> {
    // All of the bytes.
    pub fn new(bytes: &'a [u8]) -> Input<'a>
        ensures { result ≡ bytes.now }
    {
        Input { rest: bytes }
    }

    // Whether nothing is left.
    pub fn is_empty(&self) -> bool
        ensures { IsTrue result ↔ (length self.now ≡ 0) }
    {
        self.rest.is_empty()
    }

    // The same bytes, to be read beside these.
    pub fn fork(&self) -> Input<'a>
        ensures { result ≡ self.now }
    {
        Input { rest: self.rest }
    }

    // The next N bytes.
    fn chunk<const N: usize>(&mut self) -> Result<[u8; N], Malformed>
        ensures ok { IsOk result ↔ (N ≤ length self.old) }
        ensures value { IfOk result (λ bytes. bytes ≡ take N self.old) }
        ensures rest { OnOk result (self.new ≡ drop N self.old) }
        ensures same { OnErr result (self.new ≡ self.old) }
        ensures onward { Onward self.old self.new }
    {
        let (chunk, rest) = self.rest.split_first_chunk().ok_or(Malformed)?;
        self.rest = rest;
        Ok(*chunk)
    }

    // The next bytes, as many as are asked for.
    pub fn bytes(&mut self, count: usize) -> Result<&'a [u8], Malformed>
        ensures ok { IsOk result ↔ (count ≤ length self.old) }
        ensures value { IfOk result (λ bytes. bytes.now ≡ take count self.old) }
        ensures rest { OnOk result (self.new ≡ drop count self.old) }
        ensures same { OnErr result (self.new ≡ self.old) }
        ensures onward { Onward self.old self.new }
    {
        let (bytes, rest) = self.rest.split_at_checked(count).ok_or(Malformed)?;
        self.rest = rest;
        Ok(bytes)
    }

    // The next byte, which is 0 or 1. (A match on the byte: no TryFrom of std makes a bool of a number.)
    pub fn flag(&mut self) -> Result<bool, Malformed>
        ensures ok { IsOk result ↔ (1 ≤ length self.old) × (little_endian 1 self.old 0 < 2) }
        ensures value { IfOk result (λ b. bit b ≡ little_endian 1 self.old 0) }
        ensures rest { OnOk result (self.new ≡ drop 1 self.old) }
        ensures refused { OnErr result (self.new ≡ drop 1 self.old) }
        ensures onward { Onward self.old self.new }
    {
        match u8::read(self)? {
            0 => Ok(false),
            1 => Ok(true),
            _ => Err(Malformed),
        }
    }

    // Fills the list with the next numbers. Where they are cut short it holds those that were there, and then zeros.
    pub fn fill<T: Number>(&mut self, list: &mut [T]) -> Result<(), Malformed>
        ensures ok { IsOk result ↔ (T.size * length list.old ≤ length self.old) }
        ensures value { OnOk result (list.new ≡ spelled_in T.size T.spelled self.old (length list.old)) }
        ensures rest { OnOk result (self.new ≡ drop (T.size * length list.old) self.old) }
        ensures cut_short { OnErr result ((k : ℕ) × (T.size * k ≤ length self.old) × (length self.old < T.size * (k + 1)) × (self.new ≡ drop (T.size * k) self.old) × (list.new ≡ spelled_in T.size T.spelled self.old k ++ drop k (table (λ i. T.ZERO) (length list.old)))) }
        ensures onward { Onward self.old self.new }
    {
        clear(list);
        self.read_all(list)
    }

    // The next numbers, into the list from its start. What is past a cut stays.
    fn read_all<T: Number>(&mut self, list: &mut [T]) -> Result<(), Malformed>
        ensures ok { IsOk result ↔ (T.size * length list.old ≤ length self.old) }
        ensures value { OnOk result (list.new ≡ spelled_in T.size T.spelled self.old (length list.old)) }
        ensures rest { OnOk result (self.new ≡ drop (T.size * length list.old) self.old) }
        ensures cut_short { OnErr result ((k : ℕ) × (T.size * k ≤ length self.old) × (length self.old < T.size * (k + 1)) × (self.new ≡ drop (T.size * k) self.old) × (list.new ≡ spelled_in T.size T.spelled self.old k ++ drop k list.old)) }
        ensures onward { Onward self.old self.new }
    {
        for x in list {
            *x = T::read(self)?;
        }
        Ok(())
    }
}

// Zeros in every place.
#[tactic(auto, using(numbers::proofs::Filled::fill_none))]
fn clear<T: Number>(list: &mut [T])
    ensures { list.new ≡ table (λ i. T.ZERO) (length list.old) }
{
    for x in list {
        *x = T::ZERO;
    }
}

// A number of a fixed size.
pub trait Number: Copy {
    ghost size: { ℕ };

    // What the first bytes of a list spell.
    ghost spelled: { List ℕ → Self };

    const ZERO: Self;

    ghost ZERO: { Self };

    // The next number.
    fn read(input: &mut Input) -> Result<Self, Malformed>
        ensures ok { IsOk result ↔ (size ≤ length input.old) }
        ensures value { IfOk result (λ n. n ≡ spelled input.old) }
        ensures rest { OnOk result (input.new ≡ drop size input.old) }
        ensures same { OnErr result (input.new ≡ input.old) }
        ensures onward { Onward input.old input.new };
}

// (An impl for each type: the gate takes none that a macro of the repository writes.)
impl Number for u8 {
    ghost size = { 1 };

    ghost spelled = { λ s. little_endian 1 s 0 };

    const ZERO: u8 = 0;

    ghost ZERO = { 0 };

    fn read(input: &mut Input) -> Result<u8, Malformed> {
        Ok(u8::from_le_bytes(input.chunk()?))
    }
}

impl Number for u16 {
    ghost size = { 2 };

    ghost spelled = { λ s. little_endian 2 s 0 };

    const ZERO: u16 = 0;

    ghost ZERO = { 0 };

    fn read(input: &mut Input) -> Result<u16, Malformed> {
        Ok(u16::from_le_bytes(input.chunk()?))
    }
}

impl Number for u32 {
    ghost size = { 4 };

    ghost spelled = { λ s. little_endian 4 s 0 };

    const ZERO: u32 = 0;

    ghost ZERO = { 0 };

    fn read(input: &mut Input) -> Result<u32, Malformed> {
        Ok(u32::from_le_bytes(input.chunk()?))
    }
}

impl Number for u64 {
    ghost size = { 8 };

    ghost spelled = { λ s. little_endian 8 s 0 };

    const ZERO: u64 = 0;

    ghost ZERO = { 0 };

    fn read(input: &mut Input) -> Result<u64, Malformed> {
        Ok(u64::from_le_bytes(input.chunk()?))
    }
}

impl Number for i32 {
    ghost size = { 4 };

    ghost spelled = { λ s. cast_signed w32 (little_endian 4 s 0) };

    const ZERO: i32 = 0;

    ghost ZERO = { pos 0 };

    fn read(input: &mut Input) -> Result<i32, Malformed> {
        Ok(i32::from_le_bytes(input.chunk()?))
    }
}

impl Number for i64 {
    ghost size = { 8 };

    ghost spelled = { λ s. signed_64 (little_endian 8 s 0) };

    const ZERO: i64 = 0;

    ghost ZERO = { pos 0 };

    fn read(input: &mut Input) -> Result<i64, Malformed> {
        Ok(i64::from_le_bytes(input.chunk()?))
    }
}

// A count that has no meaning above a limit.
pub fn at_most(count: usize, most: usize) -> Result<usize, Malformed>
    ensures ok { IsOk result ↔ (count ≤ most) }
    ensures value { IfOk result (λ n. n ≡ count) }
{
    if count <= most {
        return Ok(count);
    }
    Err(Malformed)
}

// What the buffer holds before the call: -1, -2, -3, ...
#[tactic(auto, using(std::proofs::lemmas::Int::ints, numbers::proofs::Filled::fill_none, numbers::proofs::Filled::fill_all), unfolding(crate::specs::Input::lent))]
pub fn lent_numbers() -> [i64; MOST_LENT]
    ensures { result ≡ lent MOST_LENT }
{
    let mut numbers = numbers::repeat::<_, MOST_LENT>(0);
    for (i, number) in numbers.iter_mut().enumerate() {
        *number = -1 - i as i64;
    }
    numbers
}
