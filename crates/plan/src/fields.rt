// The fields of a line, and the numbers that they write.
ghost use Rattle.std.specs.Prelude.{◌≡◌, ◌≤◌, not, length, ◌==◌, nat_eq};
ghost use Rattle.std.specs.List.{prefix_len};
ghost use Rattle.layout.specs.Layout.{decimal, fields, first_number, rest_of, end_of, numbers_of, digit_of, first_of};
ghost use Rattle.plan.specs.Views.{first_text};

use layout::faults::NumberFault;

// How many bytes stand before the first `stop`: all of them where there is none.
pub(crate) fn until(bytes: &[u8], stop: u8) -> usize
    ensures value { result ≡ prefix_len (λ b. not (b == stop)) bytes.now }
    ensures within { result ≤ length bytes.now }
{
    bytes.iter().take_while(|b| **b != stop).count()
}

// How many spaces stand at the front. One function with `until`, over a closure, would say in its contract that the closure may be called.
fn spaces(bytes: &[u8]) -> usize
    ensures value { result ≡ prefix_len (λ b. nat_eq b 32) bytes.now }
    ensures within { result ≤ length bytes.now }
{
    bytes.iter().take_while(|b| **b == b' ').count()
}

// The digit that a byte writes.
fn digit(byte: u8) -> Result<u16, NumberFault>
    ensures { result ≡ digit_of byte }
{
    let digit = char::from(byte).to_digit(10).ok_or(NumberFault::Wrong)?;
    Ok(digit as u16)
}

// The number that a field of 1 to 4 digits writes.
fn decimal(field: &[u8]) -> Result<u16, NumberFault>
    ensures { result ≡ decimal field.now }
{
    if field.is_empty() || field.len() > 4 {
        return Err(NumberFault::Wrong);
    }
    let mut value = 0;
    for byte in field {
        value = value * 10 + digit(*byte)?;
    }
    Ok(value)
}

// The fields that are still to be read of what follows the letter of a line.
#[derive(Drop)]
pub(crate) struct Fields<'a> {
    rest: &'a [u8],
}

impl<'a> Fields<'a> {
    // The fields of what follows a letter.
    pub(crate) fn of(rest: &'a [u8]) -> Fields<'a>
        ensures { result.rest.now ≡ rest.now }
    {
        Fields { rest }
    }

    // The next field, if there is one.
    pub(crate) fn field(&mut self) -> Option<&'a [u8]>
        ensures value { first_text result ≡ first_of (fields self.old.rest.now) }
        ensures rest { fields self.new.rest.now ≡ rest_of (fields self.old.rest.now) }
    {
        if self.rest.is_empty() {
            return None;
        }
        let blanks = spaces(self.rest);
        let text = &self.rest[blanks..];
        let end = until(text, b' ');
        self.rest = &text[end..];
        Some(&text[0..end])
    }

    // The next field, which must be a number from `low` to `high`.
    fn number(&mut self, low: u16, high: u16) -> Result<u16, NumberFault>
        ensures value { result ≡ first_number low high (fields self.old.rest.now) }
        ensures rest { fields self.new.rest.now ≡ rest_of (fields self.old.rest.now) }
    {
        let Some(field) = self.field() else {
            return Err(NumberFault::Wrong);
        };
        let number = decimal(field)?;
        if number < low || number > high {
            return Err(NumberFault::Wrong);
        }
        Ok(number)
    }

    // Nothing may be left.
    fn end(&self) -> Result<(), NumberFault>
        ensures { result ≡ end_of (fields self.now.rest.now) }
    {
        if !self.rest.is_empty() {
            return Err(NumberFault::Wrong);
        }
        Ok(())
    }

    // Two numbers, from `low` up to the first and the second of `highs`, and nothing after them.
    pub(crate) fn numbers(&mut self, low: u16, highs: (u16, u16)) -> Result<(u16, u16), NumberFault>
        ensures { result ≡ numbers_of low highs.0 highs.1 (fields self.old.rest.now) }
    {
        let first = self.number(low, highs.0)?;
        let second = self.number(low, highs.1)?;
        self.end()?;
        Ok((first, second))
    }
}
