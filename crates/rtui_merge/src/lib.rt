//! Border merging: what stands in a cell once a text is drawn over another one.
//!
//! A border symbol is one of 125 box drawing characters, each with four arms. Two of them can be
//! joined arm by arm; any other text stays or comes as it is. The crate stands on std alone.
//!
//! To the layer above it gives [`MergeStrategy::merge`], which answers exactly `merged` of
//! `specs/Merge.antt` and takes no memory. Under `Fuzzy` two border symbols always give a border
//! symbol with the arms of both. [`BorderSymbol`] is a symbol by its arms: read from a text,
//! joined, and written as a text again. What holds of more than one call, or of the symbols
//! themselves, is in [`laws`].
#![tactic(auto)]

ghost use Rattle.std.specs.Prelude.{◌≡◌};
ghost use Rattle.rtui_merge.specs.Merge.{Unites, merged};

mod border_symbol;
mod error;
pub mod laws;
mod tables;

pub use border_symbol::{BorderSymbol, LineStyle};
pub use error::BorderSymbolError;
use tables::arms_of;

/// How a text is drawn over the one that stands in a cell. The default is `Replace`.
///
/// ```
/// MergeStrategy::Replace.merge("│", "━"); // "━"
/// MergeStrategy::Exact.merge("│", "━"); // "┿"
/// MergeStrategy::Exact.merge("┘", "╭"); // "╭", as no symbol has just the arms of both
/// MergeStrategy::Fuzzy.merge("┘", "╭"); // "┼"
/// ```
#[derive(Debug, Copy, Clone, Eq, PartialEq, Hash, Default)]
pub enum MergeStrategy {
    /// The new text takes the place of the old one.
    #[default]
    Replace,
    /// Two border symbols give the symbol that has each arm of the new one, and the old one's arms
    /// if the new one has none. If there is no such symbol, the new one takes the place of the old
    /// one.
    Exact,
    /// As `Exact`, but if there is no such symbol, the arms change their styles until there is one.
    Fuzzy,
}

impl MergeStrategy {
    /// Returns what stands in a cell that held `prev`, once `next` is drawn there: one of the two,
    /// or a border symbol with the arms of both.
    ///
    /// Save under `Replace`, a border symbol never hides a text that is none: then `prev` stays. A
    /// `next` that is no border symbol always takes its place.
    #[tactic(auto, using(crate::proofs::MergeLemmas::merging), unfolding(crate::specs::Merge::merged))]
    pub fn merge<'a>(self, prev: &'a str, next: &'a str) -> &'a str
        ensures value { result.now ≡ merged self prev.now next.now }
        ensures united { self ≡ MergeStrategy.Fuzzy → Unites prev.now next.now result.now }
    {
        if self == MergeStrategy::Replace {
            return next;
        }
        match (arms_of(prev), arms_of(next)) {
            (Some(prev_symbol), Some(next_symbol)) => {
                let exact = prev_symbol.exact(next_symbol);
                match (exact.to_str(), self) {
                    (Some(symbol), _) => symbol,
                    (None, MergeStrategy::Fuzzy) => exact
                        .fuzzy(next_symbol)
                        .to_str()
                        .unwrap_or(next),
                    (None, _) => next,
                }
            }
            (None, Some(_)) => prev,
            (_, None) => next,
        }
    }
}
