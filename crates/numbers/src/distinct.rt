// Whether a number stands twice in a list.
ghost use Rattle.std.specs.Prelude.{◌≡◌, refl, ℕ, map, nat_eq};
ghost use Rattle.numbers.specs.Lists.{distinct};

use crate::marks::Marks;

// A number from 0 on, of its own width.
pub trait Natural: Copy + PartialEq {
    ghost number: { Self → ℕ };

    fn number(self) -> u64
        ensures { result ≡ number self };

    // Two are equal if their numbers are.
    ghost equal: { (x y : Self) → Self.eq x y ≡ nat_eq (number x) (number y) };
}

impl Natural for u16 {
    ghost number = { λ x. x };

    ghost equal = { λ x y. refl };

    fn number(self) -> u64 {
        u64::from(self)
    }
}

impl Natural for u64 {
    ghost number = { λ x. x };

    ghost equal = { λ x y. refl };

    fn number(self) -> u64 {
        self
    }
}

// Whether none stands twice: only one whose bucket is marked is searched for among those before it.
pub fn are_distinct<T: Natural>(xs: &[T]) -> bool
    ensures { result ≡ distinct (map T.number xs.now) }
{
    let mut marks = Marks::none();
    for (i, x) in xs.iter().enumerate() {
        if marks.mark(x.number()) && xs[..i].contains(x) {
            return false;
        }
    }
    true
}
