ghost use Rattle.std.specs.Prelude.{◌≡◌, ◌++◌, [], Some, IfOk, IsOk, nat_eq};
ghost use Rattle.std.specs.Cow.{cow_str_bytes};
ghost use Rattle.std.specs.Hash as fed;
ghost use Rattle.std.specs.Hash.{on_Alike, and-Alike};
ghost use Rattle.std.specs.Cmp.{and_equiv, on_equiv, nat_eq_equiv, partial_equiv_from_equiv};
ghost use Rattle.std.specs.Cmp.Lexicographic.{pointwise, nat_list_eq_equiv};
ghost use Rattle.std.specs.Ordering.{on, eq_of_both};
ghost use Rattle.std.specs.String.{string_bytes};
ghost use Rattle.rtui_text.specs.Text.{raw_text};
ghost use Rattle.rtui_text.specs.Hashing.{text_Alike, char_Alike};
ghost use Rattle.rtui_text.specs.Masked.{mask_value};

use crate::text::Text;
use std::alloc::{AllocError, Global};
use std::borrow::CowStr;
use std::fmt;
use std::hash::{Hash, Hasher};
use std::marker::Model;

/// A text that shows one character for each of its own, as a password is shown. Its `Debug` shows
/// the text itself.
///
/// ```
/// let password = Masked::new("12345", 'x');
/// let shown = password.value(alloc)?; // xxxxx
/// ```
#[derive(Drop)]
pub struct Masked<'a> {
    inner: CowStr<'a>,
    mask_char: char,
}

impl<'a> Model for Masked<'a> {
    ghost use Rattle.std.specs.Cow.{cow_str_bytes};
    ghost use Rattle.rtui_text.specs.Masked.{MaskedData};

    ghost Value = { MaskedData };

    ghost view = { λ m. record { content = cow_str_bytes m.inner; mask_char = m.mask_char } };
}

impl<'a> Masked<'a> {
    /// Takes a borrowed text, and the character to show.
    pub fn new(text: &'a str, mask_char: char) -> Masked<'a>
        ensures { result ≡ record { content = text.now; mask_char = mask_char } }
    {
        Masked {
            inner: CowStr::Borrowed(text),
            mask_char,
        }
    }

    /// Takes an owned text, and the character to show.
    pub fn from_string(text: String, mask_char: char) -> Masked<'a>
        ensures { result ≡ record { content = string_bytes text; mask_char = mask_char } }
    {
        Masked {
            inner: CowStr::Owned(text),
            mask_char,
        }
    }

    /// Returns the character to show.
    pub fn mask_char(&self) -> char
        ensures { result ≡ self.now.mask_char }
    {
        self.mask_char
    }

    /// Returns what is shown, in a text of its own.
    ///
    /// # Errors
    ///
    /// `AllocError` if memory is refused. An empty text takes none.
    pub fn value(&self, alloc: Global) -> Result<CowStr<'a>, AllocError>
        ensures value { IfOk result (λ value. cow_str_bytes value ≡ mask_value self.now) }
        ensures succeeds { self.now.content ≡ [] → IsOk result }
    {
        Ok(CowStr::Owned(self.shown(alloc)?))
    }

    /// Returns what is shown, as a text of lines.
    ///
    /// # Errors
    ///
    /// `AllocError` if memory is refused.
    pub fn to_text(&self, alloc: Global) -> Result<Text<'a>, AllocError>
        ensures { IfOk result (λ text. text ≡ raw_text (mask_value self.now)) }
    {
        Text::raw_string(alloc, self.shown(alloc)?)
    }

    /// Makes an equal one, which borrows what this one borrows.
    ///
    /// # Errors
    ///
    /// `AllocError` if memory is refused.
    pub fn clone(&self, alloc: Global) -> Result<Masked<'a>, AllocError>
        ensures { IfOk result (λ m. m ≡ self.now) }
    {
        let inner = match &self.inner {
            CowStr::Borrowed(text) => CowStr::Borrowed(*text),
            CowStr::Owned(text) => CowStr::Owned(String::from_str(alloc, text.as_str())?),
        };
        Ok(Masked {
            inner,
            mask_char: self.mask_char,
        })
    }

    // What is shown.
    fn shown(&self, alloc: Global) -> Result<String, AllocError>
        ensures value { IfOk result (λ text. string_bytes text ≡ mask_value self.now) }
        ensures succeeds { self.now.content ≡ [] → IsOk result }
    {
        let mut shown = String::new(alloc);
        for _c in self.inner.as_str().chars() {
            shown.push(self.mask_char)?;
        }
        Ok(shown)
    }
}

impl PartialEq for Masked<'_> {
    ghost eq = { eq_of_both
        (on (λ m. m.content) (pointwise nat_eq))
        (on (λ m. m.mask_char) nat_eq) };

    ghost laws = { partial_equiv_from_equiv (and_equiv
        (on_equiv (λ m. m.content) nat_list_eq_equiv)
        (on_equiv (λ m. m.mask_char) nat_eq_equiv)) };

    fn eq(&self, other: &Self) -> bool {
        self.inner.as_str() == other.inner.as_str() && self.mask_char == other.mask_char
    }
}

impl Eq for Masked<'_> {
    ghost laws = { and_equiv
        (on_equiv (λ m. m.content) nat_list_eq_equiv)
        (on_equiv (λ m. m.mask_char) nat_eq_equiv) };
}

impl Hash for Masked<'_> {
    ghost hash_input = { λ m. fed.str m.content ++ fed.char m.mask_char };

    ghost respects_eq = { (and-Alike
        (on_Alike (λ m. m.content) text_Alike)
        (on_Alike (λ m. m.mask_char) char_Alike)).fed };

    fn hash<H: Hasher>(&self, state: &mut H) {
        self.inner.as_str().hash(state);
        self.mask_char.hash(state);
    }
}

/// What is shown.
impl fmt::Display for Masked<'_> {
    ghost output = { λ m. Some (mask_value m) };

    fn fmt<W: fmt::Write>(&self, f: &mut fmt::Formatter<W>) -> fmt::Result {
        for _c in self.inner.as_str().chars() {
            f.write_char(self.mask_char)?;
        }
        Ok(())
    }
}

/// The text itself.
impl fmt::Debug for Masked<'_> {
    ghost debug_output = { λ m. Some m.content };

    fn fmt<W: fmt::Write>(&self, f: &mut fmt::Formatter<W>) -> fmt::Result {
        f.write_str(self.inner.as_str())
    }
}

/// The empty text, masked by U+0000.
impl<'a> Default for Masked<'a> {
    ghost is_default = { λ m. m ≡ record { content = []; mask_char = 0 } };

    fn default() -> Masked<'a> {
        Masked::new("", '\0')
    }
}
