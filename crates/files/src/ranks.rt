//! The beginning of a key as one number.

ghost use Rattle.std.specs.Prelude.{◌≡◌, ◌<◌, ◌+◌, ◌*◌, ◌^◌, ◌∷◌, List, ℕ, true, false};
ghost use Rattle.files.specs.Ranks.{in_bytes, more_bytes, key_bytes, worth, key_rank};

// The bytes of a key up to one: what they are worth, and what one is worth in the next byte. Even
// the highest byte fits.
#[derive(Drop)]
struct Rank {
    value: u128,
    unit: u128,
    ghost has_room: { value + 255 * unit < 2 ^ 128 },
}

// How many bytes a number takes after its first one, 3 at most.
fn more_bytes(number: u64) -> u8
    ensures { result ≡ more_bytes number }
{
    match number {
        0..0x100 => 0,
        0x100..0x1_0000 => 1,
        0x1_0000..0x100_0000 => 2,
        _ => 3,
    }
}

impl Rank {
    // Appends a byte. The first one from 255 on counts as 255, and nothing counts after it.
    fn push(&mut self, byte: u64)
        ensures { (rest : List ℕ) → self.new.value + worth self.new.unit rest
            ≡ self.old.value + worth self.old.unit (byte ∷ rest) }
    {
        if byte < 255 {
            self.value += u128::from(byte) * self.unit;
            self.unit /= 256;
        } else {
            self.value += 255 * self.unit;
            self.unit = 0;
        }
    }

    // Appends a number in bytes, so many after the first one.
    fn push_bytes(&mut self, more: u8, number: u64)
        ensures { (rest : List ℕ) → self.new.value + worth self.new.unit rest
            ≡ self.old.value + worth self.old.unit (in_bytes more number rest) }
    {
        if more == 0 {
            self.push(number);
        } else {
            self.push_bytes(more - 1, number / 256);
            self.push(number % 256);
        }
    }

    // Appends a number.
    fn push_number(&mut self, number: u64)
        ensures { (rest : List ℕ)
            → self.new.value + worth self.new.unit (key_bytes false rest)
            ≡ self.old.value + worth self.old.unit (key_bytes true (number ∷ rest)) }
    {
        let more = more_bytes(number);
        self.push(u64::from(more) + 1);
        self.push_bytes(more, number);
    }

    // Appends an item of a key, perhaps a number; returns whether the next one is a number.
    fn push_item(&mut self, is_number: bool, item: u64) -> bool
        ensures { (rest : List ℕ)
            → self.new.value + worth self.new.unit (key_bytes result rest)
            ≡ self.old.value + worth self.old.unit (key_bytes is_number (item ∷ rest)) }
    {
        if is_number {
            self.push_number(item);
            return false;
        }
        if item == 0 {
            return true;
        }
        self.push(item.min(251) + 4);
        false
    }
}

/// Returns the beginning of a key as one number.
pub(crate) fn key_rank(key: &[u64]) -> u128
    ensures { result ≡ key_rank key.now }
{
    let mut rank = Rank {
        value: 0,
        unit: 1 << 120,
    };
    let mut is_number = false;
    for item in key {
        is_number = rank.push_item(is_number, *item);
    }
    rank.value
}
