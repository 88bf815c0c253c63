ghost use Rattle.std.specs.Prelude.{◌≡◌, ◌==◌, ◌++◌, length, Some, None, nat_eq, IsOk, OnOk, OnErr, IfOk};
ghost use Rattle.std.specs.String.{string_bytes};
ghost use Rattle.std.specs.Hash as fed;
ghost use Rattle.std.specs.Cmp.Rules.{comparing, hashing};
ghost use Rattle.std.specs.Cmp.Lexicographic.{pointwise};
ghost use Rattle.std.specs.Ordering.{on};
ghost use Rattle.std.proofs.Common.{rules};
ghost use Rattle.rtui_cell.specs.Symbol.{symbol_text, appended, joined, IsShort};

use arrayvec::ArrayString;
use rtui_merge::MergeStrategy;
use rtui_merge::laws::merge_with_itself;
use std::alloc::{AllocError, Global};
use std::fmt;
use std::hash::{Hash, Hasher};
use std::marker::Model;

// The bytes of a text that are kept in the symbol itself.
const INLINE: usize = 22;

// Where a symbol has its text.
#[derive(Drop)]
enum Storage {
    Unset,
    // unset again, in the room of a short text, so that taking texts away and setting them writes
    // little
    Cleared(ArrayString<INLINE>),
    Short(ArrayString<INLINE>),
    Long(String),
}

/// The text of a cell, or none yet. An unset symbol reads as one blank and equals one. A text of at
/// most 22 bytes takes no memory. Its `Debug` shows the text, one blank if there is none.
#[derive(Drop)]
pub struct Symbol {
    text: Storage,
}

impl Model for Symbol {
    ghost use Rattle.std.specs.Prelude.{Option, List, ℕ};
    ghost use Rattle.rtui_cell.specs.Stored.{stored_text, IsStoredByLength};

    ghost Value = { Option (List ℕ) };

    ghost view = { λ s. stored_text s.text };

    ghost invariant = { λ s. IsStoredByLength s.text };
}

impl Symbol {
    /// No text yet.
    pub const UNSET: Symbol = Symbol {
        text: Storage::Unset,
    };

    /// Makes a symbol with this text.
    ///
    /// # Errors
    ///
    /// `AllocError` if memory is refused. A text of at most 22 bytes takes none.
    pub fn new(alloc: Global, text: &str) -> Result<Symbol, AllocError>
        ensures value { IfOk result (λ s. s ≡ Some text.now) }
        ensures short { IsShort text.now → IsOk result }
    {
        let text = match ArrayString::from(text) {
            Ok(short) => Storage::Short(short),
            Err(_) => Storage::Long(copied(alloc, text)?),
        };
        Ok(Symbol { text })
    }

    /// Returns the text, one blank if there is none.
    pub fn as_str(&self) -> &str
        ensures { result.now ≡ symbol_text self.now }
    {
        match &self.text {
            Storage::Unset | Storage::Cleared(_) => " ",
            Storage::Short(text) => text.as_str(),
            Storage::Long(text) => text.as_str(),
        }
    }

    /// Sets the text.
    ///
    /// # Errors
    ///
    /// `AllocError` if memory is refused; nothing has changed then. A text of at most 22 bytes
    /// takes none.
    #[inline(always)]
    pub fn set(&mut self, alloc: Global, text: &str) -> Result<(), AllocError>
        ensures ok { OnOk result (self.new ≡ Some text.now) }
        ensures err { OnErr result (self.new ≡ self.old) }
        ensures short { IsShort text.now → IsOk result }
    {
        // the room of a text that was taken away is there to be filled
        match &self.text {
            Storage::Cleared(room) if text.len() <= INLINE => self.text = Storage::Short(*room),
            _ => {}
        }
        match &mut self.text {
            Storage::Short(stored) if text.len() <= INLINE => {
                stored.clear();
                stored.push_str(text);
            }
            _ => match ArrayString::from(text) {
                Ok(short) => self.store(short),
                Err(_) => self.replace(alloc, text)?,
            },
        }
        Ok(())
    }

    // Puts a short text in place of any other; apart, so that the path of a short one stays short,
    // and by its value, so that the bytes of a character needn't be written to memory for it.
    #[inline(never)]
    fn store(&mut self, text: ArrayString<INLINE>)
        ensures { self.new ≡ Some text.bytes }
    {
        self.text = Storage::Short(text);
    }

    // Puts a text in place of any other; apart, so that the path of a short one stays short.
    #[inline(never)]
    fn replace(&mut self, alloc: Global, text: &str) -> Result<(), AllocError>
        ensures ok { OnOk result (self.new ≡ Some text.now) }
        ensures err { OnErr result (self.new ≡ self.old) }
        ensures short { IsShort text.now → IsOk result }
    {
        *self = Symbol::new(alloc, text)?;
        Ok(())
    }

    // Takes the text away.
    pub(crate) fn unset(&mut self)
        ensures { self.new ≡ None }
    {
        match &self.text {
            Storage::Unset | Storage::Cleared(_) => {}
            Storage::Short(text) => self.text = Storage::Cleared(*text),
            Storage::Long(_) => self.text = Storage::Unset,
        }
    }

    /// Puts a text after the stored one, or in place of an unset symbol.
    ///
    /// # Errors
    ///
    /// `AllocError` if memory is refused; nothing has changed then. If the text that results has at
    /// most 22 bytes, none is taken.
    pub fn append(&mut self, alloc: Global, text: &str) -> Result<(), AllocError>
        ensures ok { OnOk result (self.new ≡ Some (appended self.old text.now)) }
        ensures err { OnErr result (self.new ≡ self.old) }
        ensures short { IsShort (appended self.old text.now) → IsOk result }
    {
        match &mut self.text {
            Storage::Unset | Storage::Cleared(_) => *self = Symbol::new(alloc, text)?,
            Storage::Short(stored) => {
                if stored.try_push_str(text).is_err() {
                    self.text = Storage::Long(concat(alloc, stored.as_str(), text)?);
                }
            }
            Storage::Long(stored) => stored.push_str(text)?,
        }
        Ok(())
    }

    /// Draws a text over the stored one by a strategy, or takes the place of an unset symbol.
    ///
    /// # Errors
    ///
    /// `AllocError` if memory is refused; nothing has changed then. If the text that results has at
    /// most 22 bytes, none is taken.
    pub fn merge(
        &mut self,
        alloc: Global,
        text: &str,
        strategy: MergeStrategy,
    ) -> Result<(), AllocError>
        ensures ok { OnOk result (self.new ≡ Some (joined strategy self.old text.now)) }
        ensures err { OnErr result (self.new ≡ self.old) }
        ensures short { IsShort (joined strategy self.old text.now) → IsOk result }
    {
        match &self.text {
            Storage::Unset | Storage::Cleared(_) => self.set(alloc, text),
            _ => self.join(alloc, text, strategy),
        }
    }

    // Draws a text over the stored one; apart, so that the path of an unset symbol stays short.
    #[inline(never)]
    fn join(&mut self, alloc: Global, text: &str, strategy: MergeStrategy) -> Result<(), AllocError>
        ensures ok { OnOk result (self.new ≡ Some (joined strategy self.old text.now)) }
        ensures err { OnErr result (self.new ≡ self.old) }
        ensures short { IsShort (joined strategy self.old text.now) → IsOk result }
    {
        match &self.text {
            Storage::Unset | Storage::Cleared(_) => self.set(alloc, text),
            Storage::Short(stored) if stored.as_str() == text => {
                merge_with_itself();
                Ok(())
            }
            Storage::Short(stored) => {
                let stored = *stored;
                self.set(alloc, strategy.merge(stored.as_str(), text))
            }
            Storage::Long(stored) => {
                *self = Symbol::new(alloc, strategy.merge(stored.as_str(), text))?;
                Ok(())
            }
        }
    }

    /// Returns whether the text is a single byte, as the blank of an unset symbol is.
    pub fn is_single_byte(&self) -> bool
        ensures { result ≡ (length (symbol_text self.now) == 1) }
    {
        match &self.text {
            Storage::Unset | Storage::Cleared(_) => true,
            Storage::Short(text) => text.len() == 1,
            Storage::Long(_) => false,
        }
    }

    /// Makes the symbol equal to another one.
    ///
    /// # Errors
    ///
    /// `AllocError` if memory is refused; nothing has changed then. A text of at most 22 bytes
    /// takes none.
    #[inline(always)]
    pub fn clone_from(&mut self, alloc: Global, other: &Symbol) -> Result<(), AllocError>
        ensures ok { OnOk result (self.new ≡ other.now) }
        ensures err { OnErr result (self.new ≡ self.old) }
        ensures short { IsShort (symbol_text other.now) → IsOk result }
    {
        match &other.text {
            Storage::Unset | Storage::Cleared(_) => self.unset(),
            Storage::Short(text) => match &mut self.text {
                Storage::Short(stored) => *stored = *text,
                Storage::Long(_) => self.replace(alloc, text.as_str())?,
                _ => self.text = Storage::Short(*text),
            },
            Storage::Long(text) => self.replace(alloc, text.as_str())?,
        }
        Ok(())
    }

    /// Makes an equal symbol.
    ///
    /// # Errors
    ///
    /// `AllocError` if memory is refused. A text of at most 22 bytes takes none.
    pub fn clone(&self, alloc: Global) -> Result<Symbol, AllocError>
        ensures value { IfOk result (λ s. s ≡ self.now) }
        ensures short { IsShort (symbol_text self.now) → IsOk result }
    {
        match &self.text {
            Storage::Unset | Storage::Cleared(_) => Ok(Symbol::UNSET),
            Storage::Short(text) => Ok(Symbol {
                text: Storage::Short(*text),
            }),
            Storage::Long(text) => Symbol::new(alloc, text.as_str()),
        }
    }
}

// A copy on the heap; apart, so that the path of a short text stays short.
#[inline(never)]
fn copied(alloc: Global, text: &str) -> Result<String, AllocError>
    ensures { IfOk result (λ copy. string_bytes copy ≡ text.now) }
{
    String::from_str(alloc, text)
}

// Two texts, one after the other.
#[inline(never)]
fn concat(alloc: Global, front: &str, back: &str) -> Result<String, AllocError>
    ensures { IfOk result (λ text. string_bytes text ≡ front.now ++ back.now) }
{
    let mut text = String::with_capacity(alloc, front.len() + back.len())?;
    text.push_str(front)?;
    text.push_str(back)?;
    Ok(text)
}

// Whether two short texts are the same; single bytes are compared at once.
fn is_same_short(a: &ArrayString<INLINE>, b: &ArrayString<INLINE>) -> bool
    ensures { result ≡ pointwise nat_eq a.now.bytes b.now.bytes }
{
    if a.len() != b.len() {
        false
    } else if a.len() == 1 {
        a.as_str().as_bytes()[0] == b.as_str().as_bytes()[0]
    } else {
        a == b
    }
}

impl fmt::Debug for Symbol {
    ghost debug_output = { λ s. Some (symbol_text s) };

    fn fmt<W: fmt::Write>(&self, f: &mut fmt::Formatter<W>) -> fmt::Result {
        f.write_str(self.as_str())
    }
}

impl PartialEq for Symbol {
    ghost eq = { on symbol_text (pointwise nat_eq) };

    ghost laws = { Prim.search (comparing, rules) };

    fn eq(&self, other: &Symbol) -> bool {
        match (&self.text, &other.text) {
            (Storage::Short(a), Storage::Short(b)) => is_same_short(a, b),
            (Storage::Unset | Storage::Cleared(_), Storage::Unset | Storage::Cleared(_)) => true,
            _ => self.as_str() == other.as_str(),
        }
    }
}

impl Eq for Symbol {
    ghost laws = { Prim.search (comparing, rules) };
}

impl Hash for Symbol {
    ghost hash_input = { λ s. fed.str (symbol_text s) };

    ghost respects_eq = { Prim.search (hashing, rules) };

    fn hash<H: Hasher>(&self, state: &mut H) {
        self.as_str().hash(state);
    }
}
