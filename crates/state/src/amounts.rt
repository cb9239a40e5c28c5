// The amounts of a point-day, and its users' whole amounts.
ghost use Rattle.std.specs.Prelude.{◌≡◌, ◌≤◌, ◌<◌, length};
ghost use Rattle.numbers.specs.Sums.{table};
ghost use Rattle.point_day.specs.Limits.{USERS, CELLS};
ghost use Rattle.state.specs.Places.{Lengths, Small, cellZ, whole_at};

use point_day::{CELLS, KINDS, USERS};

// Consumption, losses and balance of a point-day's cells, and its users' revisions, in arrays that their owner lends.
#[derive(Clone, Copy)]
pub struct Amounts<'a> {
    pub consumption: &'a [i64; CELLS],
    pub losses: &'a [i64; CELLS],
    pub balance: &'a [i64; CELLS],
    pub revision: &'a [i64; USERS],
    // What the types say, for functions that hand the amounts on unread.
    pub ghost lengths: { Lengths consumption.now losses.now balance.now revision.now },
}

impl Amounts<'_> {
    // Consumption, losses and balance of a cell.
    fn cell_sum(&self, i: usize) -> i64
        requires { (i < CELLS) × Small self.now.consumption.now × Small self.now.losses.now × Small self.now.balance.now }
        ensures { result ≡ cellZ self.now.consumption.now self.now.losses.now self.now.balance.now i }
    {
        self.consumption[i] + self.losses[i] + self.balance[i]
    }

    // A user's whole amount.
    fn whole_amount(&self, slot: usize) -> i64
        requires { (slot < USERS) × Small self.now.consumption.now × Small self.now.losses.now × Small self.now.balance.now × Small self.now.revision.now }
        ensures { result ≡ whole_at self.now.consumption.now self.now.losses.now self.now.balance.now self.now.revision.now slot }
    {
        let mut sum: i64 = 0;
        for k in 0..KINDS {
            sum += self.cell_sum(KINDS * slot + k);
        }
        sum + self.revision[slot]
    }

    // The whole amounts of the first users, as many as there are places for.
    pub fn whole_amounts(&self, wholes: &mut [i64])
        requires { (length wholes.old ≤ USERS) × Small self.now.consumption.now × Small self.now.losses.now × Small self.now.balance.now × Small self.now.revision.now }
        ensures { wholes.new ≡ table (whole_at self.now.consumption.now self.now.losses.now self.now.balance.now self.now.revision.now) (length wholes.old) }
    {
        for s in 0..wholes.len() {
            wholes[s] = self.whole_amount(s);
        }
    }
}
