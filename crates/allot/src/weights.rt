// The weights of a point-day's users and of their kinds: consumption plus losses of kinds 2 to 5, or of all kinds.
ghost use Rattle.std.specs.Prelude.{◌≡◌, ◌+◌, ◌≤◌, ◌<◌, nat_abs, length};
ghost use Rattle.numbers.specs.Sums.{atZ, total, Bounded};
ghost use Rattle.proration.specs.Proration.{LARGEST_WEIGHT};
ghost use Rattle.point_day.specs.Limits.{USERS, CELLS};
ghost use Rattle.point_day.specs.Calls.{by_basis};
ghost use Rattle.allot.specs.UserWeights.{CellsInRange, consumption_and_losses, weight_at, weights, by_all_kinds, basis_weights};

use point_day::KINDS;

// The kinds that the weights are of.
#[derive(Clone, Copy, Debug, PartialEq, Eq)]
pub enum Kinds {
    From2To5,
    All,
}

// The kinds that the weights are of, and the sum of the weights, W.
#[derive(Clone, Copy)]
pub struct Basis {
    pub kinds: Kinds,
    pub total: u64,
}

// Consumption and losses of a point-day's cells: each in its range, and together too. Two lists, as a point-day has them: read in place.
#[derive(Clone, Copy)]
pub struct Offtakes<'a> {
    pub consumption: &'a [i64],
    pub losses: &'a [i64],
    pub ghost in_range: { CellsInRange consumption.now losses.now },
}

impl<'a> Offtakes<'a> {
    ghost use Rattle.allot.specs.Basis.{are_all};

    // Consumption plus losses of a cell.
    fn cell(&self, i: usize) -> u64
        requires { i < CELLS }
        ensures value { result ≡ nat_abs (atZ self.now.consumption.now i) + nat_abs (atZ self.now.losses.now i) }
        ensures upper_bound { result ≤ LARGEST_WEIGHT }
    {
        (self.consumption[i] + self.losses[i]) as u64
    }

    // The weights of a user's kinds.
    pub fn kind_weights(&self, kinds: Kinds, slot: usize) -> [u64; KINDS]
        requires { slot < USERS }
        ensures value { result ≡ by_basis (are_all kinds) (consumption_and_losses self.now.consumption.now self.now.losses.now slot) }
        ensures bounded { Bounded LARGEST_WEIGHT result }
    {
        let i = KINDS * slot;
        let b = self.cell(i + 1);
        let c = self.cell(i + 2);
        let d = self.cell(i + 3);
        let e = self.cell(i + 4);
        let a = match kinds {
            Kinds::From2To5 => 0,
            Kinds::All => self.cell(i),
        };
        [a, b, c, d, e]
    }

    // A user's weight.
    fn user_weight(&self, kinds: Kinds, slot: usize) -> u64
        requires { slot < USERS }
        ensures { result ≡ weight_at (are_all kinds) self.now.consumption.now self.now.losses.now slot }
    {
        let ws = self.kind_weights(kinds, slot);
        proration::weight_total(&ws)
    }

    // The weights of as many users as there is room for.
    fn weights(&self, kinds: Kinds, ws: &mut [u64])
        requires { length ws.old ≤ USERS }
        ensures { ws.new ≡ weights (are_all kinds) self.now.consumption.now self.now.losses.now (length ws.old) }
    {
        for (s, w) in ws.iter_mut().enumerate() {
            *w = self.user_weight(kinds, s);
        }
    }

    // The users' weights, of kinds 2 to 5 or, if these are zero for all users, of all kinds.
    pub fn weigh(&self, ws: &mut [u64]) -> Basis
        requires { length ws.old ≤ USERS }
        ensures kinds { are_all result.kinds ≡ by_all_kinds self.now.consumption.now self.now.losses.now (length ws.old) }
        ensures total { result.total ≡ total (basis_weights self.now.consumption.now self.now.losses.now (length ws.old)) }
        ensures ws_after { ws.new ≡ basis_weights self.now.consumption.now self.now.losses.now (length ws.old) }
    {
        self.weights(Kinds::From2To5, ws);
        let total = proration::weight_total(ws);
        if total != 0 {
            return Basis {
                kinds: Kinds::From2To5,
                total,
            };
        }
        self.weights(Kinds::All, ws);
        Basis {
            kinds: Kinds::All,
            total: proration::weight_total(ws),
        }
    }
}
