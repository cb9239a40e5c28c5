// The point-day: its limits, its state, what a call on it answers; the fresh point-day.
#![tactic(auto)]

ghost use Rattle.std.specs.Prelude.{◌≡◌, pos, replicate};
ghost use Rattle.point_day.specs.Limits.{USERS, CELLS};
ghost use Rattle.point_day.specs.Day.{fresh};
ghost use Rattle.numbers.specs.Refusals.{number_of};
ghost use Rattle.point_day.specs.Answers.{refused, values_of, answer_of, numbered};
ghost use Rattle.point_day.specs.Struct.{laid, outcome};

use numbers::Refusal;

// Limits of a point-day.
pub const USERS: usize = 64;

pub const KINDS: usize = 5;

pub const CELLS: usize = KINDS * USERS;

pub const LIMIT: u64 = 1000000000;

pub const AMOUNT: u64 = 2000000000;

pub const COEFFICIENT: u64 = 10000;

pub const PARTS: u64 = 100000;

pub const TOLERANCE: u64 = 100;

// A stand-in takes so many rows; its pairs stand in one array, USERS places a row.
pub const ROWS: usize = 15;

pub const PAIRS: usize = ROWS * USERS;

#[derive(Clone, Copy, Debug, PartialEq, Eq)]
pub enum Stage {
    Provisional,
    FinalProvisional,
    FinalDefinitive,
}

// Emission and downstream emission.
#[derive(Clone, Copy, Debug, PartialEq, Eq)]
pub struct Measurement {
    pub emission: u64,
    pub downstream: u64,
}

// One point on one gas day, in fixed memory: it goes by value, so it holds arrays and a count. The users stand in the order in which they
// joined; kind k of slot s is cell KINDS s + k - 1.
#[derive(Clone, Copy)]
pub struct PointDay {
    pub stage: Stage,
    pub allotted: bool,
    pub measurement: Option<Measurement>,
    pub count: usize,
    pub users: [u16; USERS],
    pub consumption: [i64; CELLS],
    pub losses: [i64; CELLS],
    pub balance: [i64; CELLS],
    pub revision: [i64; USERS],
}

// The rows of a stand-in in three lists, as callers in other languages lend them: how many pairs each has; user and amount of pair j of
// row i stand at USERS i + j.
#[derive(Clone, Copy)]
pub struct StandInRows {
    pub counts: [usize; ROWS],
    pub users: [u16; PAIRS],
    pub amounts: [i64; PAIRS],
}

// What an accepted call answers: the values that document 01 names.
#[derive(Clone, Copy, Debug, PartialEq, Eq)]
pub enum Accepted {
    Done,
    LossesAdded(u64),
    RowsLookedAt(usize),
    WithinTolerance(i64),
    RevisionAssigned(i64),
}

// What a call answers.
pub type Answer = Result<Accepted, Refusal>;

// A call's answer, and the point-day afterwards.
#[derive(Clone, Copy)]
pub struct Outcome {
    pub answer: Answer,
    pub day: PointDay,
}

// A refused call: the refusal, and the point-day as it was.
pub fn refuse(refusal: Refusal, day: PointDay) -> Outcome
    ensures { outcome (answer_of result.answer) result.day ≡ outcome (refused (number_of refusal)) day }
{
    Outcome {
        answer: Err(refusal),
        day,
    }
}

// A call refused by any number, also one that no call refuses by, and the point-day as it was. (Beside `refuse`: an `Outcome` holds a refusal.)
pub fn refuse_by(number: u8, day: PointDay) -> (Result<Accepted, u8>, PointDay)
    ensures { outcome (numbered result.0) result.1 ≡ outcome (refused number) day }
{
    (Err(number), day)
}

// An accepted call: its values, and the point-day afterwards.
pub fn accept(accepted: Accepted, next: PointDay) -> Outcome
    ensures { outcome (answer_of result.answer) result.day ≡ outcome (values_of accepted) next }
{
    Outcome {
        answer: Ok(accepted),
        day: next,
    }
}

// A fresh point-day.
pub fn fresh_day() -> PointDay
    ensures { result ≡ laid fresh }
{
    PointDay {
        stage: Stage::Provisional,
        allotted: false,
        measurement: None,
        count: 0,
        users: [0; USERS],
        consumption: [0; CELLS],
        losses: [0; CELLS],
        balance: [0; CELLS],
        revision: [0; USERS],
    }
}
