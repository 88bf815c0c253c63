//! What a script plays and shows, in order.

ghost use Rattle.std.specs.Prelude.{◌≡◌, ◌++◌, ◌∷◌, [], OnOk, OnErr};

use crate::raw_lines::RawLines;
use crate::scene::Puts;
use rtui_geometry::Size;
use std::alloc::{AllocError, Global};
use std::marker::Model;

/// A step of a script, whose text is made when it is played.
#[derive(Debug, Drop)]
pub enum Plan<'a> {
    /// A frame, as `Step::Draw`.
    Draw {
        size: Option<Size>,
        text: RawLines<'a>,
        puts: Puts,
    },
    /// Rows above an inline viewport, as `Step::Insert`.
    Insert(RawLines<'a>),
    /// An empty viewport.
    Clear,
}

/// One act of a script.
#[derive(Debug, Drop)]
pub enum Act<'a> {
    /// A step is played.
    Play(Plan<'a>),
    /// The scene is printed.
    Show,
}

/// Acts, in order.
#[derive(Debug, Drop)]
pub struct Acts<'a> {
    items: Vec<Act<'a>>,
}

impl<'a> Model for Acts<'a> {
    ghost use Rattle.std.specs.Prelude.{List};
    ghost use Rattle.screenplay.specs.declared.act.Act.{Act};

    ghost Value = { List Act };

    ghost view = { λ acts. acts.items.items };
}

impl<'a> Acts<'a> {
    /// Makes a list without acts; takes no memory.
    pub fn new(alloc: Global) -> Acts<'a>
        ensures { result ≡ [] }
    {
        Acts {
            items: Vec::new(alloc),
        }
    }

    /// Appends an act.
    ///
    /// # Errors
    ///
    /// `AllocError` if memory is refused; nothing has changed then.
    pub fn push(&mut self, act: Act<'a>) -> Result<(), AllocError>
        ensures ok { OnOk result (self.new ≡ self.old ++ act.entry ∷ []) }
        ensures err { OnErr result (self.new ≡ self.old) }
    {
        self.items.push(act)?;
        Ok(())
    }

    /// Returns the acts, in order.
    pub fn as_slice(&self) -> &[Act<'a>]
        ensures { result.now ≡ self.now }
    {
        self.items.as_slice()
    }
}
