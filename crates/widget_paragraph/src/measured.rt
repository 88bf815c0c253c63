//! A grapheme and its columns.

ghost use Rattle.std.specs.Prelude.{◌≡◌};
ghost use Rattle.ratatui_core.specs.Text.{grapheme_data};
ghost use Rattle.widget_paragraph.specs.Reflow.{grapheme_columns, is_break};

use ratatui_core::style::Style;
use ratatui_core::text::StyledGrapheme;
use std::marker::Model;

/// A grapheme of a line, and how many columns it takes, which is asked for several times.
#[derive(Debug, Drop)]
pub(crate) struct Measured<'t> {
    grapheme: StyledGrapheme<'t>,
    columns: u16,
}

impl<'t> Model for Measured<'t> {
    ghost use Rattle.std.specs.Prelude.{◌≡◌};
    ghost use Rattle.ratatui_core.specs.Text.{GraphemeData, grapheme_data};
    ghost use Rattle.widget_paragraph.specs.Reflow.{grapheme_columns};

    ghost Value = { GraphemeData };

    ghost view = { λ m. grapheme_data m.grapheme };

    ghost invariant = { λ m. m.columns ≡ grapheme_columns (grapheme_data m.grapheme) };
}

impl<'t> Measured<'t> {
    /// Makes a grapheme that takes so many columns.
    pub(crate) fn new(grapheme: StyledGrapheme<'t>, columns: u16) -> Measured<'t>
        requires { columns ≡ grapheme_columns (grapheme_data grapheme) }
        ensures { result ≡ grapheme_data grapheme.entry }
    {
        Measured { grapheme, columns }
    }

    /// Returns the grapheme.
    pub(crate) fn symbol(&self) -> &'t str
        ensures { result.now ≡ self.now.symbol }
    {
        self.grapheme.symbol
    }

    /// Returns its style.
    pub(crate) fn style(&self) -> Style
        ensures { result ≡ self.now.style }
    {
        self.grapheme.style
    }

    /// Returns how many columns it takes.
    pub(crate) fn columns(&self) -> u16
        ensures { result ≡ grapheme_columns self.now }
    {
        self.columns
    }

    /// Returns whether a line may be broken at it.
    pub(crate) fn is_blank(&self) -> bool
        ensures { result ≡ is_break self.now }
    {
        self.grapheme.is_whitespace()
    }
}
