//! Numbers below a bound that the type names.
ghost use Rattle.std.specs.Prelude.{◌≡◌, ◌<◌, ◌↔◌, IsSome, IfSome};

use std::marker::Model;

/// A number below `N`.
#[derive(Clone, Copy, PartialEq, Eq, Hash, Debug)]
pub struct LessThanN<const N: usize> {
    number: usize,
}

impl<const N: usize> Model for LessThanN<N> {
    ghost use Rattle.std.specs.Prelude.{ℕ, ◌<◌};

    ghost Value = { ℕ };

    ghost view = { λ n. n.number };

    ghost inverse = { λ n. record { number = n } };

    ghost invariant = { λ n. n.number < N };
}

impl<const N: usize> LessThanN<N> {
    /// The number, if it is below `N`.
    pub fn new(i: usize) -> Option<LessThanN<N>>
        ensures found { IsSome result ↔ (i < N) }
        ensures value { IfSome result (λ n. n ≡ i) }
    {
        if i < N {
            Some(LessThanN { number: i })
        } else {
            None
        }
    }

    /// The number.
    pub fn i(self) -> usize
        ensures value { result ≡ self.entry }
        ensures below { result < N }
    {
        self.number
    }
}
