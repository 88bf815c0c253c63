//! The items of a list.

ghost use Rattle.std.specs.Prelude.{◌≡◌, length, IfOk};
ghost use Rattle.ratatui_core.specs.Style.{new_style};
ghost use Rattle.ratatui_core.specs.Text.{widest};
ghost use Rattle.widget_list.specs.Items.{raw_item};
ghost use Rattle.widget_list.specs.Windows.{item_rows};

use ratatui_core::style::Style;
use ratatui_core::text::Text;
use std::alloc::{AllocError, Global};

/// An item of a list: a text in a style, which takes a row for each of its lines.
#[derive(Debug, PartialEq, Eq, Drop)]
pub struct ListItem<'a> {
    pub(crate) content: Text<'a>,
    pub(crate) style: Style,
}

impl<'a> ListItem<'a> {
    /// Makes an item of a text; takes no memory.
    pub fn new(content: Text<'a>) -> ListItem<'a>
        ensures { result ≡ record { content = content.entry; style = new_style } }
    {
        ListItem {
            content,
            style: Style::new(),
        }
    }

    /// Makes an item of a plain text, a row for each of its lines.
    ///
    /// # Errors
    ///
    /// `AllocError` if memory is refused.
    pub fn raw(alloc: Global, text: &'a str) -> Result<ListItem<'a>, AllocError>
        ensures { IfOk result
            (λ item. item ≡ raw_item text.now) }
    {
        let content = Text::raw(alloc, text)?;
        Ok(ListItem::new(content))
    }

    /// Sets the style of the item.
    pub fn style(self, style: Style) -> ListItem<'a>
        ensures { result ≡ record self.entry { style = style } }
    {
        ListItem { style, ..self }
    }

    /// Makes an equal item.
    ///
    /// # Errors
    ///
    /// `AllocError` if memory is refused.
    pub fn clone(&self, alloc: Global) -> Result<ListItem<'a>, AllocError>
        ensures { IfOk result (λ item. item ≡ self.now) }
    {
        Ok(ListItem {
            content: self.content.clone(alloc)?,
            style: self.style,
        })
    }

    /// Returns how many rows it takes.
    pub fn height(&self) -> usize
        ensures { result ≡ item_rows self.now }
    {
        self.content.height()
    }

    /// Returns how many columns its widest line takes.
    pub fn width(&self) -> usize
        ensures { result ≡ widest self.now.content.lines }
    {
        self.content.width()
    }
}
