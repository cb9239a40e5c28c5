// A row of the inventory: a user and kind with its amounts, whether it has one, and its five numbers in a buffer.
ghost use Rattle.std.specs.Prelude.{◌≡◌, true, ◌++◌, ◌+◌, ◌≤◌, length, take, drop};
ghost use Rattle.point_day.specs.Limits.{KINDS};
ghost use Rattle.inventory.specs.Row.{ROW, is_row, row, row_if, Put};

// The numbers of a row.
pub const ROW: usize = 5;

// Whether consumption, losses and balance are not all zero.
pub fn is_row(consumption: i64, losses: i64, balance: i64) -> bool
    ensures { result ≡ is_row consumption losses balance }
{
    consumption != 0 || losses != 0 || balance != 0
}

// A user and kind, and its amounts.
#[derive(Clone, Copy)]
pub struct UserKind {
    pub user: u16,
    pub kind: usize,
    pub consumption: i64,
    pub losses: i64,
    pub balance: i64,
}

impl UserKind {
    // The five numbers of its row.
    fn row(self) -> [i64; ROW]
        requires { self.kind ≤ KINDS }
        ensures { result ≡ row self.user self.kind self.consumption self.losses self.balance }
    {
        [
            i64::from(self.user),
            self.kind as i64,
            self.consumption,
            self.losses,
            self.balance,
        ]
    }

    // Writes its row to a place of the buffer, if its amounts are not all zero; returns the place after it.
    pub fn write(self, place: usize, out: &mut [i64]) -> usize
        requires { (self.kind ≤ KINDS) × (is_row self.consumption self.losses self.balance ≡ true → place + ROW ≤ length out.old) }
        ensures { Put place (row_if self.user self.kind self.consumption self.losses self.balance) out.old result out.new }
    {
        if !is_row(self.consumption, self.losses, self.balance) {
            return place;
        }
        out[place..place + ROW].copy_from_slice(&self.row());
        place + ROW
    }
}
