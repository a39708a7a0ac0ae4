// Labels of kind S.
ghost use Rattle.std.specs.Prelude.{◌^◌, ◌<◌};

use crate::Label;

// A label of 32 bits, summed modulo 2^32, in the layout of a C struct.
#[repr(C)]
#[derive(Drop)]
pub struct Sum32 {
    pub value: u32,
    ghost below: { value < 2 ^ 32 },
}

impl Label for Sum32 {
    ghost use Rattle.label.specs.Kinds.{sums, low_bits};

    const LETTER: u8 = b'S';

    ghost LETTER = { 83 };

    ghost group = { sums };

    ghost drawn = { low_bits };

    fn zero() -> Self {
        Sum32 { value: 0 }
    }

    fn sum(&self, other: &Self) -> Self {
        Sum32 {
            value: self.value.wrapping_add(other.value),
        }
    }

    fn opposite(&self) -> Self {
        Sum32 {
            value: 0u32.wrapping_sub(self.value),
        }
    }

    fn same(&self, other: &Self) -> bool {
        self.value == other.value
    }

    fn draw(word: u64) -> Self {
        Sum32 {
            value: (word % 0x1_0000_0000) as u32,
        }
    }
}
