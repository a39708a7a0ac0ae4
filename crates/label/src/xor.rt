// Labels of kind X.

use crate::Label;

// A label of 64 bits, summed by exclusive or, in the layout of a C struct.
#[repr(C)]
#[derive(Clone, Copy)]
pub struct Xor {
    pub bits: u64,
}

impl Label for Xor {
    ghost use Rattle.label.specs.Kinds.{xors, word_label};

    const LETTER: u8 = b'X';

    ghost LETTER = { 88 };

    ghost group = { xors };

    ghost drawn = { word_label };

    fn zero() -> Self {
        Xor { bits: 0 }
    }

    fn sum(&self, other: &Self) -> Self {
        Xor {
            bits: self.bits ^ other.bits,
        }
    }

    fn opposite(&self) -> Self {
        Xor { bits: self.bits }
    }

    fn same(&self, other: &Self) -> bool {
        self.bits == other.bits
    }

    fn draw(word: u64) -> Self {
        Xor { bits: word }
    }
}
