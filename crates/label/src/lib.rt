// Labels of tracks: a commutative group into which words are drawn, and three kinds of it.
//
// Code over labels takes any `K: Label`, and is proved from the ghost members `group`, `drawn` and `LETTER` alone.
#![tactic(auto)]

ghost use Rattle.std.specs.Prelude.{◌≡◌, ℕ, Decides};
ghost use Rattle.label.specs.Groups.{Group};

pub mod both;
pub mod sum;
pub mod xor;

pub trait Label: Sized + Drop {
    // the letter of the kind, and the number that it is
    const LETTER: u8;

    ghost LETTER: { ℕ };

    // zero, sum and opposite, with their laws
    ghost group: { Group Self };

    // the label that a word draws
    ghost drawn: { ℕ → Self };

    fn zero() -> Self
        ensures { result ≡ group.zero };

    fn sum(&self, other: &Self) -> Self
        ensures { result ≡ group.sum self.now other.now };

    fn opposite(&self) -> Self
        ensures { result ≡ group.opposite self.now };

    // Whether two labels are equal. `PartialEq` would promise generic code no more than an equivalence.
    fn same(&self, other: &Self) -> bool
        ensures { Decides result (self.now ≡ other.now) };

    // The label that a word draws: it depends on the word alone.
    fn draw(word: u64) -> Self
        ensures { result ≡ drawn word };
}
