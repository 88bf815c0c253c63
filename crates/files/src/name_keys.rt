//! What names are compared by: numbers as numbers.

ghost use Rattle.std.specs.Prelude.{◌≡◌, ◌++◌, ◌∷◌, [], List, ℕ, IfOk, OnOk, Some, true};
ghost use Rattle.files.specs.NameKeys.{is_digit_byte, sort_key_in, name_sort_key};

use crate::sort_key::SortKey;
use std::alloc::{AllocError, Global};

// A number with a digit more, or the number of a digit.
fn with_digit(number: Option<u64>, digit: u8) -> u64
    requires { is_digit_byte digit ≡ true }
    ensures { (rest : List ℕ) → sort_key_in number (digit ∷ rest) ≡ sort_key_in (Some result) rest }
{
    let value = u64::from(digit - b'0');
    match number {
        Some(number) => number.saturating_mul(10).saturating_add(value),
        None => value,
    }
}

// Appends a number, if there is one.
fn push_number(key: &mut Vec<u64>, number: Option<u64>) -> Result<(), AllocError>
    ensures { OnOk result (key.new.items ≡ key.old.items ++ sort_key_in number []) }
{
    if let Some(number) = number {
        key.push(0)?;
        key.push(number)?;
    }
    Ok(())
}

// Appends what a byte adds, and answers the number in whose middle it stands.
fn push_byte(key: &mut Vec<u64>, number: Option<u64>, byte: u8) -> Result<Option<u64>, AllocError>
    ensures { IfOk result (λ next. (rest : List ℕ) → key.new.items ++ sort_key_in next rest
        ≡ key.old.items ++ sort_key_in number (byte ∷ rest)) }
{
    if byte.is_ascii_digit() {
        return Ok(Some(with_digit(number, byte)));
    }
    push_number(key, number)?;
    key.push(u64::from(byte) + 1)?;
    Ok(None)
}

/// Returns what a name is compared by.
pub(crate) fn name_sort_key(alloc: Global, name: &str) -> Result<SortKey, AllocError>
    ensures { IfOk result (λ key. key ≡ name_sort_key name.now) }
{
    let mut key = Vec::with_capacity(alloc, name.len())?;
    let mut number = None;
    for byte in name.as_bytes() {
        number = push_byte(&mut key, number, *byte)?;
    }
    push_number(&mut key, number)?;
    Ok(SortKey::new(key))
}
