// Labels of kind B.

use crate::Label;

// A label of any kind beside a label of any kind.
#[derive(Drop)]
pub struct Both<A, B> {
    pub left: A,
    pub right: B,
}

impl<A: Label, B: Label> Label for Both<A, B> {
    ghost use Rattle.label.specs.Kinds.{pairs, rotated};

    const LETTER: u8 = b'B';

    ghost LETTER = { 66 };

    ghost group = { pairs A.Label.group B.Label.group };

    ghost drawn = { λ w. record { left = A.Label.drawn w; right = B.Label.drawn (rotated w) } };

    fn zero() -> Self {
        Both {
            left: A::zero(),
            right: B::zero(),
        }
    }

    fn sum(&self, other: &Self) -> Self {
        Both {
            left: self.left.sum(&other.left),
            right: self.right.sum(&other.right),
        }
    }

    fn opposite(&self) -> Self {
        Both {
            left: self.left.opposite(),
            right: self.right.opposite(),
        }
    }

    fn same(&self, other: &Self) -> bool {
        self.left.same(&other.left) && self.right.same(&other.right)
    }

    fn draw(word: u64) -> Self {
        Both {
            left: A::draw(word),
            right: B::draw(word.rotate_left(32)),
        }
    }
}
