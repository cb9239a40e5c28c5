// The user numbers of a point-day: none is 0, none stands twice, and none stands past the last user.
ghost use Rattle.std.specs.Prelude.{◌≡◌, not, ℕ, ◌<◌, length, get_or};
ghost use Rattle.numbers.specs.Lists.{both, has, distinct};
ghost use Rattle.numbers.specs.Amounts.{Decides};

// Whether no user number is 0 and none stands twice.
pub fn numbers_right(users: &[u16]) -> bool
    ensures { result ≡ both (not (has 0 users.now)) (distinct users.now) }
{
    !users.contains(&0) && numbers::distinct::are_distinct(users)
}

// Whether no user number stands here: their bits are gathered, and tested once. (A loop without an early end, which is faster. Amounts have
// `numbers::all_zero`: they are signed, and of another definition.)
pub fn no_numbers(users: &[u16]) -> bool
    ensures { Decides result ((i : ℕ) → i < length users.now → get_or users.now i 0 ≡ 0) }
{
    let mut bits: u16 = 0;
    for user in users {
        bits |= user;
    }
    bits == 0
}
