ghost use Rattle.std.specs.Prelude.{◌≡◌, Some, IsTrue, IsOk, OnOk, OnErr, IfOk, encode_utf8};
ghost use Rattle.rtui_cell.specs.Symbol.{symbol_text, appended, joined, IsShort};
ghost use Rattle.rtui_cell.specs.Cell.{empty_cell, cell_of, with_symbol, styled, style_of, is_skipped};
ghost use Rattle.rtui_cell.specs.Cell.{is_single_byte, width_of};

use crate::symbol::Symbol;
use bitflags::Flags;
use rtui_grid::Blank;
use rtui_merge::MergeStrategy;
use rtui_style::{Color, Modifier, Style};
use std::alloc::{AllocError, Global};
use std::num::NonZeroU16;

/// How a diff treats a cell.
#[derive(Debug, Default, Clone, Copy, PartialEq, Eq, Hash)]
pub enum CellDiffOption {
    /// By its contents.
    #[default]
    None,
    /// Never drawn.
    Skip,
    /// Drawn each time.
    AlwaysUpdate,
    /// As a cell of this many columns, whatever its symbol takes.
    ForcedWidth(NonZeroU16),
}

/// One cell of a buffer: what stands in a column of a row. A text of at most 22 bytes takes no
/// memory.
///
/// Two cells are equal if their texts, colours, modifiers, options and flags are; an unset symbol
/// equals a blank.
///
/// ```
/// let mut cell = Cell::new(alloc, "a")?;
/// cell.set_fg(Color::Red).set_style(Style::new().bold());
/// cell.append_symbol(alloc, "\u{301}")?; // an accent over it
/// ```
#[derive(Debug, Drop, PartialEq, Eq, Hash)]
pub struct Cell {
    /// The colour of the text.
    pub fg: Color,
    /// The colour of the background.
    pub bg: Color,
    /// The colour of the underline.
    pub underline_color: Color,
    /// Bold, underlined and the like.
    pub modifier: Modifier,
    /// How a diff treats the cell.
    pub diff_option: CellDiffOption,
    /// Whether the cell is skipped if it has no option.
    pub skip: bool,
    symbol: Symbol,
}

impl Blank for Cell {
    ghost blank = { empty_cell };

    fn make_blank(&mut self) {
        self.reset();
    }
}

impl Cell {
    /// A blank without colours, modifiers and option; its symbol is unset.
    pub const EMPTY: Cell = Cell {
        fg: Color::Reset,
        bg: Color::Reset,
        underline_color: Color::Reset,
        modifier: Modifier::NONE,
        diff_option: CellDiffOption::None,
        skip: false,
        symbol: Symbol::UNSET,
    };

    /// Makes an otherwise empty cell with this text.
    ///
    /// # Errors
    ///
    /// `AllocError` if memory is refused. A text of at most 22 bytes takes none.
    pub fn new(alloc: Global, symbol: &str) -> Result<Cell, AllocError>
        ensures value { IfOk result (λ cell. cell ≡ cell_of symbol.now) }
        ensures short { IsShort symbol.now → IsOk result }
    {
        Ok(Cell {
            symbol: Symbol::new(alloc, symbol)?,
            ..Cell::EMPTY
        })
    }

    /// Makes an otherwise empty cell with this character.
    ///
    /// # Errors
    ///
    /// None: it takes no memory.
    pub fn from_char(alloc: Global, ch: char) -> Result<Cell, AllocError>
        ensures value { IfOk result (λ cell. cell ≡ cell_of (encode_utf8 ch)) }
        ensures succeeds { IsOk result }
    {
        let mut bytes = [0; 4];
        Cell::new(alloc, ch.encode_utf8(&mut bytes))
    }

    /// Returns the text, one blank if none is set.
    pub fn symbol(&self) -> &str
        ensures { result.now ≡ symbol_text self.now.symbol }
    {
        self.symbol.as_str()
    }

    /// Sets the text.
    ///
    /// # Errors
    ///
    /// `AllocError` if memory is refused; nothing has changed then. A text of at most 22 bytes
    /// takes none.
    #[inline(always)]
    pub fn set_symbol(&mut self, alloc: Global, symbol: &str) -> Result<(), AllocError>
        ensures ok { OnOk result (self.new ≡ with_symbol symbol.now self.old) }
        ensures err { OnErr result (self.new ≡ self.old) }
        ensures short { IsShort symbol.now → IsOk result }
    {
        self.symbol.set(alloc, symbol)
    }

    /// Puts a text after the stored one, or in place of an unset one.
    ///
    /// # Errors
    ///
    /// `AllocError` if memory is refused; nothing has changed then. If the text that results has at
    /// most 22 bytes, none is taken.
    pub fn append_symbol(&mut self, alloc: Global, symbol: &str) -> Result<(), AllocError>
        ensures ok { let text = appended self.old.symbol symbol.now in
            OnOk result (self.new ≡ with_symbol text self.old) }
        ensures err { OnErr result (self.new ≡ self.old) }
        ensures short { IsShort (appended self.old.symbol symbol.now) → IsOk result }
    {
        self.symbol.append(alloc, symbol)
    }

    /// Draws a text over the stored one by a strategy, or sets an unset one to it.
    ///
    /// # Errors
    ///
    /// `AllocError` if memory is refused; nothing has changed then. If the text that results has at
    /// most 22 bytes, none is taken.
    pub fn merge_symbol(
        &mut self,
        alloc: Global,
        symbol: &str,
        strategy: MergeStrategy,
    ) -> Result<(), AllocError>
        ensures ok { let text = joined strategy self.old.symbol symbol.now in
            OnOk result (self.new ≡ with_symbol text self.old) }
        ensures err { OnErr result (self.new ≡ self.old) }
        ensures short { IsShort (joined strategy self.old.symbol symbol.now) → IsOk result }
    {
        self.symbol.merge(alloc, symbol, strategy)
    }

    /// Sets the text to one character.
    ///
    /// # Errors
    ///
    /// None: it takes no memory.
    #[inline(always)]
    pub fn set_char(&mut self, alloc: Global, ch: char) -> Result<(), AllocError>
        ensures ok { OnOk result (self.new ≡ with_symbol (encode_utf8 ch) self.old) }
        ensures succeeds { IsOk result }
    {
        let mut bytes = [0; 4];
        self.set_symbol(alloc, ch.encode_utf8(&mut bytes))
    }

    /// Sets the text, and lays a style over the cell.
    ///
    /// # Errors
    ///
    /// Those of [`set_symbol`](Cell::set_symbol).
    #[inline(always)]
    pub fn put(&mut self, alloc: Global, symbol: &str, style: Style) -> Result<(), AllocError>
        ensures ok { OnOk result (self.new ≡ styled style (with_symbol symbol.now self.old)) }
        ensures err { OnErr result (self.new ≡ self.old) }
        ensures short { IsShort symbol.now → IsOk result }
    {
        self.set_symbol(alloc, symbol)?;
        self.set_style(style);
        Ok(())
    }

    /// Sets the colour of the text.
    pub fn set_fg(&mut self, color: Color) -> &mut Self
        ensures same { result.ghost_name ≡ self.entry.ghost_name }
        ensures value { result.now ≡ record self.old { fg = color } }
    {
        self.fg = color;
        self
    }

    /// Sets the colour of the background.
    pub fn set_bg(&mut self, color: Color) -> &mut Self
        ensures same { result.ghost_name ≡ self.entry.ghost_name }
        ensures value { result.now ≡ record self.old { bg = color } }
    {
        self.bg = color;
        self
    }

    /// Lays a style over the cell: set colours replace, added modifiers come in, removed ones go.
    pub fn set_style(&mut self, style: Style) -> &mut Self
        ensures same { result.ghost_name ≡ self.entry.ghost_name }
        ensures value { result.now ≡ styled style self.old }
    {
        if let Some(fg) = style.fg {
            self.fg = fg;
        }
        if let Some(bg) = style.bg {
            self.bg = bg;
        }
        if let Some(underline_color) = style.underline_color {
            self.underline_color = underline_color;
        }
        self.modifier.insert(style.add_modifier);
        self.modifier.remove(style.sub_modifier);
        self
    }

    /// Returns the three colours of the cell, and its modifiers as added ones.
    pub fn style(&self) -> Style
        ensures { result ≡ style_of self.now }
    {
        Style {
            fg: Some(self.fg),
            bg: Some(self.bg),
            underline_color: Some(self.underline_color),
            add_modifier: self.modifier,
            sub_modifier: Modifier::NONE,
        }
    }

    /// Sets the flag that skips a cell without an option.
    pub fn set_skip(&mut self, skip: bool) -> &mut Self
        ensures same { result.ghost_name ≡ self.entry.ghost_name }
        ensures value { result.now ≡ record self.old { skip = skip } }
    {
        self.skip = skip;
        self
    }

    /// Sets how a diff treats the cell.
    pub fn set_diff_option(&mut self, diff_option: CellDiffOption) -> &mut Self
        ensures same { result.ghost_name ≡ self.entry.ghost_name }
        ensures value { result.now ≡ record self.old { diff_option = diff_option } }
    {
        self.diff_option = diff_option;
        self
    }

    /// Returns whether the cell is never drawn: its option is `Skip`, or it has none and the flag
    /// is set.
    #[tactic(auto, unfolding(crate::specs::Cell::is_skipped))]
    pub fn is_skipped(&self) -> bool
        ensures { result ≡ is_skipped self.now }
    {
        match self.diff_option {
            CellDiffOption::Skip => true,
            CellDiffOption::None => self.skip,
            _ => false,
        }
    }

    /// Returns whether the text is a single byte, as a blank if none is set, and the cell has no
    /// option. It takes one column then.
    #[tactic(auto, unfolding(crate::specs::Cell::is_single_byte))]
    pub fn is_single_byte(&self) -> bool
        ensures value { result ≡ is_single_byte self.now }
        ensures narrow { IsTrue result → width_of self.now ≡ 1 }
    {
        matches!(self.diff_option, CellDiffOption::None) && self.symbol.is_single_byte()
    }

    /// Makes the cell empty.
    pub fn reset(&mut self)
        ensures { self.new ≡ empty_cell }
    {
        self.symbol.unset();
        self.fg = Color::Reset;
        self.bg = Color::Reset;
        self.underline_color = Color::Reset;
        self.modifier = Modifier::NONE;
        self.diff_option = CellDiffOption::None;
        self.skip = false;
    }

    /// Makes the cell equal to another one.
    ///
    /// # Errors
    ///
    /// `AllocError` if memory is refused; nothing has changed then. A text of at most 22 bytes
    /// takes none.
    #[inline(always)]
    pub fn clone_from(&mut self, alloc: Global, other: &Cell) -> Result<(), AllocError>
        ensures ok { OnOk result (self.new ≡ other.now) }
        ensures err { OnErr result (self.new ≡ self.old) }
        ensures short { IsShort (symbol_text other.now.symbol) → IsOk result }
    {
        self.symbol.clone_from(alloc, &other.symbol)?;
        self.fg = other.fg;
        self.bg = other.bg;
        self.underline_color = other.underline_color;
        self.modifier = other.modifier;
        self.diff_option = other.diff_option;
        self.skip = other.skip;
        Ok(())
    }

    /// Makes an equal cell.
    ///
    /// # Errors
    ///
    /// `AllocError` if memory is refused. A text of at most 22 bytes takes none.
    pub fn clone(&self, alloc: Global) -> Result<Cell, AllocError>
        ensures value { IfOk result (λ cell. cell ≡ self.now) }
        ensures short { IsShort (symbol_text self.now.symbol) → IsOk result }
    {
        Ok(Cell {
            fg: self.fg,
            bg: self.bg,
            underline_color: self.underline_color,
            modifier: self.modifier,
            diff_option: self.diff_option,
            skip: self.skip,
            symbol: self.symbol.clone(alloc)?,
        })
    }
}

impl Default for Cell {
    ghost is_default = { λ cell. cell ≡ empty_cell };

    fn default() -> Cell {
        Cell::EMPTY
    }
}
