// The tracks that are left at a point.
ghost use Rattle.std.specs.Prelude.{◌≡◌, ◌+◌, ◌-◌, ◌<◌, ◌≤◌, bit_xor};

// How many they are, and the exclusive or of their numbers as one number: where one is left, that is its own.
#[derive(Clone, Copy)]
pub(crate) struct Degree {
    pub(crate) count: u16,
    pub(crate) numbers: u16,
}

impl Degree {
    // One track more.
    pub(crate) fn add(&mut self, number: u16)
        requires { self.old.count < 2048 }
        ensures { self.new ≡ record { count = self.old.count + 1; numbers = bit_xor self.old.numbers number } }
    {
        self.count += 1;
        self.numbers ^= number;
    }

    // One track fewer.
    pub(crate) fn remove(&mut self, number: u16)
        requires { 1 ≤ self.old.count }
        ensures { self.new ≡ record { count = self.old.count - 1; numbers = bit_xor self.old.numbers number } }
    {
        self.count -= 1;
        self.numbers ^= number;
    }
}
