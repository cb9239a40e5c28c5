// The rows of the inventory, cell after cell: how many there are, and their numbers one after the other.
ghost use Rattle.std.specs.Prelude.{◌≡◌, ◌++◌, ◌*◌, ◌≤◌, length, drop};
ghost use Rattle.point_day.specs.Limits.{USERS, CELLS};
ghost use Rattle.inventory.specs.Row.{ROW};
ghost use Rattle.inventory.specs.Cells.{cells, row_count};

use super::row::{self, UserKind};
use point_day::{CELLS, KINDS};

// The amounts of a point-day's cells: arrays side by side, as a point-day has them. (Not `state::amounts::Amounts`, which would ask callers
// for the revisions too.)
#[derive(Clone, Copy)]
pub struct Amounts<'a> {
    pub consumption: &'a [i64; CELLS],
    pub losses: &'a [i64; CELLS],
    pub balance: &'a [i64; CELLS],
}

impl<'a> Amounts<'a> {
    // How many of the first n cells are rows.
    pub fn count_rows(&self, n: usize) -> usize
        requires { n ≤ CELLS }
        ensures { result ≡ row_count self.now.consumption.now self.now.losses.now self.now.balance.now n }
    {
        let mut count: usize = 0;
        for i in 0..n {
            count += usize::from(row::is_row(self.consumption[i], self.losses[i], self.balance[i]));
        }
        count
    }

    // The rows of the first n cells, one after the other.
    pub fn write_rows(&self, users: &[u16], n: usize, out: &mut [i64])
        requires { (n ≤ CELLS) × (length users.now ≡ USERS) × (ROW * row_count self.now.consumption.now self.now.losses.now self.now.balance.now n ≤ length out.old) }
        ensures { out.new ≡ cells users.now self.now.consumption.now self.now.losses.now self.now.balance.now n ++ drop (ROW * row_count self.now.consumption.now self.now.losses.now self.now.balance.now n) out.old }
    {
        let mut place: usize = 0;
        for i in 0..n {
            let cell = UserKind {
                user: users[i / KINDS],
                kind: i % KINDS + 1,
                consumption: self.consumption[i],
                losses: self.losses[i],
                balance: self.balance[i],
            };
            place = cell.write(place, out);
        }
    }
}
