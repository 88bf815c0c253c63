//! What a play takes and gives.

ghost use Rattle.std.specs.Prelude.{◌≡◌, ◌++◌, ◌∷◌, [], OnOk, OnErr};

use rtui_backend::TestError;
use rtui_buffer::{Buffer, Cell};
use rtui_geometry::{Rect, Size};
use rtui_terminal::TerminalError;
use rtui_text::Text;
use rtui_viewport::Viewport;
use std::alloc::{AllocError, Global};
use std::marker::Model;

/// The screen that a script is played on, in columns and rows, and the part of it that is drawn on.
#[derive(Debug, Clone, Copy, PartialEq, Eq, Hash)]
pub struct Stage {
    pub width: u16,
    pub height: u16,
    pub viewport: Viewport,
}

/// Characters to be set, in order: each with its column and its row of the screen.
#[derive(Debug, Drop)]
pub struct Puts {
    items: Vec<(u16, u16, char)>,
}

impl Model for Puts {
    ghost use Rattle.std.specs.Prelude.{List, ℕ};

    ghost Value = { List (ℕ × ℕ × ℕ) };

    ghost view = { λ p. p.items.items };
}

impl Puts {
    /// Makes a list without puts; takes no memory.
    pub fn new(alloc: Global) -> Puts
        ensures { result ≡ [] }
    {
        Puts {
            items: Vec::new(alloc),
        }
    }

    /// Appends a put.
    ///
    /// # Errors
    ///
    /// `AllocError` if memory is refused; nothing has changed then.
    pub fn push(&mut self, x: u16, y: u16, ch: char) -> Result<(), AllocError>
        ensures ok { OnOk result (self.new ≡ self.old ++ (x, y, ch) ∷ []) }
        ensures err { OnErr result (self.new ≡ self.old) }
    {
        self.items.push((x, y, ch))?;
        Ok(())
    }

    /// Returns the puts, in order.
    pub fn as_slice(&self) -> &[(u16, u16, char)]
        ensures { result.now ≡ self.now }
    {
        self.items.as_slice()
    }

    /// Returns the list of the puts; takes no memory.
    pub fn into_vec(self) -> Vec<(u16, u16, char)>
        ensures { result.items ≡ self }
    {
        let Puts { items } = self;
        items
    }
}

/// Takes no memory.
impl From<Vec<(u16, u16, char)>> for Puts {
    ghost from_gives = { λ v p. p ≡ v.items };

    fn from(items: Vec<(u16, u16, char)>) -> Puts {
        Puts { items }
    }
}

/// One step of a script.
#[derive(Debug, Drop)]
pub enum Step<'a> {
    /// A frame, before which a screen whose viewport isn't fixed takes the size, if there is one:
    /// the text rendered over an empty buffer of the viewport, on which each put then sets its
    /// symbol, in order; one outside the viewport does nothing.
    Draw {
        size: Option<Size>,
        text: Text<'a>,
        puts: Puts,
    },
    /// Rows above an inline viewport, one for each line of the text, at most 65535: the text
    /// rendered over an empty buffer of the screen's width. The viewport moves down as far as there
    /// is room, and shows what it did; rows that have no room scroll off. On another viewport
    /// nothing changes.
    Insert(Text<'a>),
    /// An empty viewport.
    Clear,
}

/// What a screen shows between two steps.
#[derive(Debug, Drop)]
pub struct Scene {
    /// The rows that scrolled off, the oldest first.
    pub history: Vec<Vec<Cell>>,
    /// The screen, its corner at (0, 0).
    pub screen: Buffer,
    /// The viewport of the terminal on the screen.
    pub viewport: Rect,
}

/// Why a play ended early.
#[derive(Debug, Clone, Copy, PartialEq, Eq)]
pub enum PlayCause {
    /// Memory was refused.
    Memory,
    /// The frame over this area, or what was to be inserted above it, can't be shown as it is;
    /// nothing of it was written.
    Unsettled(Rect),
}

impl From<AllocError> for PlayCause {
    ghost use Rattle.screenplay.specs.declared.scene.PlayCause.TheVariants.{Memory};

    ghost from_gives = { λ _ cause. cause ≡ Memory };

    fn from(_: AllocError) -> PlayCause {
        PlayCause::Memory
    }
}

// A backend in memory fails for want of memory alone, unless it is told to.
impl From<TerminalError<TestError>> for PlayCause {
    ghost use Rattle.screenplay.specs.declared.scene.PlayCause.TheVariants.{Memory};

    ghost from_gives = { λ _ cause. cause ≡ Memory };

    fn from(_: TerminalError<TestError>) -> PlayCause {
        PlayCause::Memory
    }
}

/// A step that couldn't be played, by its number, counted from 1, or 0 for the start.
#[derive(Debug, Clone, Copy, PartialEq, Eq)]
pub struct StepError {
    pub step: usize,
    pub cause: PlayCause,
}

/// A play that ended early: before the step of this number, counted from 1, was done, or at 0
/// before the start.
#[derive(Debug, Drop)]
pub struct PlayFault {
    pub step: usize,
    pub cause: PlayCause,
    /// The scenes reached before, `step` of them.
    pub scenes: Vec<Scene>,
}
