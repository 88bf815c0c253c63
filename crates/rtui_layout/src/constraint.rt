ghost use Rattle.std.specs.Prelude.{◌≡◌, ◌↔◌, [], map, IsTrue, IfOk, IsOk, Some};
ghost use Rattle.rtui_layout.specs.Constraint.{IsMin, IsMax, IsLength, IsPercentage, IsRatio, IsFill};
ghost use Rattle.rtui_layout.specs.Constraint.{constraint_text};

use std::alloc::{AllocError, Global};
use std::convert::AsRef;
use std::fmt;

/// How many columns or rows one part of a layout is to have.
///
/// ```
/// Constraint::from_percentages(alloc, &[25, 75])?; // [Percentage(25), Percentage(75)]
/// Constraint::Ratio(1, 3).is_ratio(); // true
/// ```
#[derive(Debug, Clone, Copy, PartialEq, Eq, Hash)]
pub enum Constraint {
    /// At least so many columns or rows.
    Min(u16),
    /// At most so many columns or rows.
    Max(u16),
    /// So many columns or rows.
    Length(u16),
    /// So many hundredths of the area.
    Percentage(u16),
    /// A part of the area, the first number divided by the second.
    Ratio(u32, u32),
    /// What the others leave, shared with other parts of this kind by these numbers.
    Fill(u16),
}

impl Constraint {
    /// Returns whether this is a `Min`.
    pub fn is_min(&self) -> bool
        ensures { IsTrue result ↔ IsMin self.now }
    {
        matches!(self, Constraint::Min(..))
    }

    /// Returns whether this is a `Max`.
    pub fn is_max(&self) -> bool
        ensures { IsTrue result ↔ IsMax self.now }
    {
        matches!(self, Constraint::Max(..))
    }

    /// Returns whether this is a `Length`.
    pub fn is_length(&self) -> bool
        ensures { IsTrue result ↔ IsLength self.now }
    {
        matches!(self, Constraint::Length(..))
    }

    /// Returns whether this is a `Percentage`.
    pub fn is_percentage(&self) -> bool
        ensures { IsTrue result ↔ IsPercentage self.now }
    {
        matches!(self, Constraint::Percentage(..))
    }

    /// Returns whether this is a `Ratio`.
    pub fn is_ratio(&self) -> bool
        ensures { IsTrue result ↔ IsRatio self.now }
    {
        matches!(self, Constraint::Ratio(..))
    }

    /// Returns whether this is a `Fill`.
    pub fn is_fill(&self) -> bool
        ensures { IsTrue result ↔ IsFill self.now }
    {
        matches!(self, Constraint::Fill(..))
    }

    /// Makes a `Length` of each number, in the order of the slice.
    ///
    /// # Errors
    ///
    /// `AllocError` if memory is refused; no numbers take none.
    pub fn from_lengths(alloc: Global, lengths: &[u16]) -> Result<Vec<Self>, AllocError>
        ensures ok { IfOk result (λ v. v.items ≡ map Constraint.Length lengths.now) }
        ensures succeeds { lengths.now ≡ [] → IsOk result }
    {
        if lengths.is_empty() {
            return Ok(Vec::new(alloc));
        }
        lengths
            .iter()
            .map(|n| Constraint::Length(*n))
            .collect(alloc)
    }

    /// Makes a `Ratio` of each pair, in the order of the slice.
    ///
    /// # Errors
    ///
    /// `AllocError` if memory is refused; no numbers take none.
    pub fn from_ratios(alloc: Global, ratios: &[(u32, u32)]) -> Result<Vec<Self>, AllocError>
        ensures ok { IfOk result (λ v.
            v.items ≡ map (λ pair. Constraint.Ratio pair.0 pair.1) ratios.now) }
        ensures succeeds { ratios.now ≡ [] → IsOk result }
    {
        if ratios.is_empty() {
            return Ok(Vec::new(alloc));
        }
        ratios
            .iter()
            .map(|pair| Constraint::Ratio(pair.0, pair.1))
            .collect(alloc)
    }

    /// Makes a `Percentage` of each number, in the order of the slice.
    ///
    /// # Errors
    ///
    /// `AllocError` if memory is refused; no numbers take none.
    pub fn from_percentages(alloc: Global, percentages: &[u16]) -> Result<Vec<Self>, AllocError>
        ensures ok { IfOk result (λ v. v.items ≡ map Constraint.Percentage percentages.now) }
        ensures succeeds { percentages.now ≡ [] → IsOk result }
    {
        if percentages.is_empty() {
            return Ok(Vec::new(alloc));
        }
        percentages
            .iter()
            .map(|n| Constraint::Percentage(*n))
            .collect(alloc)
    }

    /// Makes a `Max` of each number, in the order of the slice.
    ///
    /// # Errors
    ///
    /// `AllocError` if memory is refused; no numbers take none.
    pub fn from_maxes(alloc: Global, maxes: &[u16]) -> Result<Vec<Self>, AllocError>
        ensures ok { IfOk result (λ v. v.items ≡ map Constraint.Max maxes.now) }
        ensures succeeds { maxes.now ≡ [] → IsOk result }
    {
        if maxes.is_empty() {
            return Ok(Vec::new(alloc));
        }
        maxes.iter().map(|n| Constraint::Max(*n)).collect(alloc)
    }

    /// Makes a `Min` of each number, in the order of the slice.
    ///
    /// # Errors
    ///
    /// `AllocError` if memory is refused; no numbers take none.
    pub fn from_mins(alloc: Global, mins: &[u16]) -> Result<Vec<Self>, AllocError>
        ensures ok { IfOk result (λ v. v.items ≡ map Constraint.Min mins.now) }
        ensures succeeds { mins.now ≡ [] → IsOk result }
    {
        if mins.is_empty() {
            return Ok(Vec::new(alloc));
        }
        mins.iter().map(|n| Constraint::Min(*n)).collect(alloc)
    }

    /// Makes a `Fill` of each number, in the order of the slice.
    ///
    /// # Errors
    ///
    /// `AllocError` if memory is refused; no numbers take none.
    pub fn from_fills(alloc: Global, fills: &[u16]) -> Result<Vec<Self>, AllocError>
        ensures ok { IfOk result (λ v. v.items ≡ map Constraint.Fill fills.now) }
        ensures succeeds { fills.now ≡ [] → IsOk result }
    {
        if fills.is_empty() {
            return Ok(Vec::new(alloc));
        }
        fills.iter().map(|n| Constraint::Fill(*n)).collect(alloc)
    }
}

impl From<u16> for Constraint {
    ghost use Rattle.rtui_layout.specs.declared.constraint.Constraint.{Constraint};

    ghost from_gives = { λ n c. c ≡ Constraint.Length n };

    fn from(length: u16) -> Self {
        Constraint::Length(length)
    }
}

impl<'a> From<&'a Constraint> for Constraint {
    ghost from_gives = { λ lent c. c ≡ lent.now };

    fn from(constraint: &'a Constraint) -> Self {
        *constraint
    }
}

impl AsRef<Constraint> for Constraint {
    fn as_ref(&self) -> &Constraint
        ensures { result.now ≡ self.now }
    {
        self
    }
}

impl Default for Constraint {
    ghost use Rattle.rtui_layout.specs.declared.constraint.Constraint.{Constraint};

    ghost is_default = { λ c. c ≡ Constraint.Percentage 100 };

    fn default() -> Self {
        Constraint::Percentage(100)
    }
}

impl fmt::Display for Constraint {
    ghost output = { λ c. Some (constraint_text c) };

    fn fmt<W: fmt::Write>(&self, f: &mut fmt::Formatter<W>) -> fmt::Result {
        match *self {
            Constraint::Min(n) => write!(f, "Min({n})"),
            Constraint::Max(n) => write!(f, "Max({n})"),
            Constraint::Length(n) => write!(f, "Length({n})"),
            Constraint::Percentage(n) => write!(f, "Percentage({n})"),
            Constraint::Ratio(m, n) => write!(f, "Ratio({m}, {n})"),
            Constraint::Fill(n) => write!(f, "Fill({n})"),
        }
    }
}
