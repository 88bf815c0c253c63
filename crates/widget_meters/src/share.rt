//! A share of a whole, in whole numbers.

ghost use Rattle.std.specs.Prelude.{◌≡◌, ◌≤◌};
ghost use Rattle.widget_meters.specs.Shares.{filled_part, rounded_part, evenly_rounded_part, eighths_of};
ghost use Rattle.widget_meters.specs.Shares.{percent_of, percent_text, even_percent_text, is_full};

use arrayvec::ArrayString;
use itoa::Buffer;

/// So many parts of a whole. More parts than the whole has count as all of them.
#[derive(Debug, Clone, Copy, PartialEq, Eq, Hash)]
pub struct Share {
    pub(crate) parts: u32,
    pub(crate) whole: u32,
}

// Hundredths, and a percent sign.
fn percent_of(hundredths: u16) -> ArrayString<8>
    ensures { result.bytes ≡ percent_of hundredths }
{
    let mut digits = Buffer::new();
    let mut text = ArrayString::new();
    text.push_str(digits.format(hundredths));
    text.push_str("%");
    text
}

impl Share {
    // Whether it is all of the whole.
    pub(crate) fn is_full(self) -> bool
        ensures { result ≡ is_full self }
    {
        self.whole.max(1) <= self.parts
    }

    // So much of a number, rounded down.
    pub(crate) fn filled(self, number: u16) -> u16
        ensures value { result ≡ filled_part self number }
        ensures within { result ≤ number }
    {
        let whole = u64::from(self.whole.max(1));
        let parts = u64::from(self.parts.min(self.whole.max(1)));
        (u64::from(number) * parts / whole) as u16
    }

    // So much of a number, rounded to the nearest one.
    pub(crate) fn rounded(self, number: u16) -> u16
        ensures value { result ≡ rounded_part self number }
        ensures within { result ≤ number }
    {
        let whole = u64::from(self.whole.max(1));
        let parts = u64::from(self.parts.min(self.whole.max(1)));
        ((2 * u64::from(number) * parts + whole) / (2 * whole)) as u16
    }

    // How many eighths of one more are left over.
    pub(crate) fn eighths(self, number: u16) -> usize
        ensures value { result ≡ eighths_of self number }
        ensures within { result ≤ 8 }
    {
        let whole = u64::from(self.whole.max(1));
        let parts = u64::from(self.parts.min(self.whole.max(1)));
        let rest = u64::from(number) * parts % whole;
        ((16 * rest + whole) / (2 * whole)) as usize
    }

    // So much of a number, rounded to the nearest one, and to the even one if two are as near.
    #[tactic(auto, unfolding(crate::specs::Shares::evenly_rounded_part))]
    pub(crate) fn evenly_rounded(self, number: u16) -> u16
        ensures value { result ≡ evenly_rounded_part self number }
        ensures within { result ≤ number }
    {
        let whole = u64::from(self.whole.max(1));
        let parts = u64::from(self.parts.min(self.whole.max(1)));
        let filled = self.filled(number);
        let rest = u64::from(number) * parts % whole;
        if whole < 2 * rest || whole == 2 * rest && filled % 2 == 1 {
            filled + 1
        } else {
            filled
        }
    }

    // The share in percent, rounded, and a percent sign. It takes no memory.
    pub(crate) fn text(self) -> ArrayString<8>
        ensures { result.bytes ≡ percent_text self }
    {
        percent_of(self.rounded(100))
    }

    // The same, rounded evenly.
    pub(crate) fn even_text(self) -> ArrayString<8>
        ensures { result.bytes ≡ even_percent_text self }
    {
        percent_of(self.evenly_rounded(100))
    }
}
