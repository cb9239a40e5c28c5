// Which numbers have been passed, by bucket: one whose bucket is not marked has not.
ghost use Rattle.std.specs.Prelude.{◌≡◌, ◌%◌, false, true, get_or, replicate, set};
ghost use Rattle.numbers.specs.Buckets.{BUCKETS};

use std::mem;

// A number's bucket is its remainder.
const BUCKETS: usize = 1024;

// The marks of the buckets.
#[derive(Drop)]
pub struct Marks {
    marked: [bool; BUCKETS],
}

impl Marks {
    // No bucket is marked.
    pub fn none() -> Marks
        ensures { result.marked ≡ replicate BUCKETS false }
    {
        Marks {
            marked: crate::repeat(false),
        }
    }

    // Marks the number's bucket, and says whether it was marked.
    pub fn mark(&mut self, n: u64) -> bool
        ensures was { result ≡ get_or self.old.marked (n % BUCKETS) false }
        ensures after { self.new.marked ≡ set self.old.marked (n % BUCKETS) true }
    {
        mem::replace(&mut self.marked[n as usize % BUCKETS], true)
    }
}
