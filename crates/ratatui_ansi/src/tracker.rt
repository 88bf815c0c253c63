//! What is known of a terminal between two calls, and the bytes that a call sends to it.

ghost use Rattle.std.specs.Prelude.{◌≡◌, ◌<◌, ◌++◌, ℕ, List, map, false, true, OnOk, IfOk, IfErr, OnErr};
ghost use Rattle.std.specs.Prelude.{IsTrue, string_bytes};
ghost use Rattle.std.specs.List.{list_all};
ghost use Rattle.std.specs.Iterator.{IsFinite, Drains};
ghost use Rattle.ratatui_core.specs.Buffer.{update_by};
ghost use Rattle.ratatui_core.specs.Backend.{Draws, Appends, Erases, Clears, ScrollsUp, ScrollsDown};
ghost use Rattle.ratatui_core.specs.Backend.{with_cursor, with_visible, All};
ghost use Rattle.ansi_model.specs.Emulator.{keeps_history};
ghost use Rattle.ratatui_ansi.specs.declared.tracker.Call.TheVariants as Called;
ghost use Rattle.ansi_model.specs.Flags.{is_cut, is_clear_cut};
ghost use Rattle.ansi_model.specs.Commands.{command_bytes, keyboard_bytes, titled_bytes, size_question};
ghost use Rattle.ansi_model.specs.Sends.{IsWithinUpdate};
ghost use Rattle.ansi_model.specs.Places.{PlacesEach};
ghost use Rattle.ratatui_ansi.specs.Cells.{is_sendable_on};
ghost use Rattle.ratatui_ansi.specs.Refusals.{RefusesTracker};
ghost use Rattle.ratatui_ansi.specs.Inner.Draw.{DraftsContent, PlacesDraft, StopsDraft};
ghost use Rattle.ratatui_ansi.specs.Inner.Tracker.{IsTracker, KeepsTracked, Collects, CallDoes};
ghost use Rattle.ratatui_ansi.specs.Inner.Tracker.{IsCommanded};
ghost use Rattle.ratatui_ansi.specs.Inner.Tracker.{IsUncollected, BeginsBlank};

use crate::draw::{CellError, Draw, DrawState, Target};
use crate::error::AnsiError;
use ansi_model::{
    Command, KeyboardEnhancementFlags, Pen, Sgr, append_lines, ask_size, blank_flags, clear_flags,
    clear_part_flags, clear_screen, erase, is_continuation, lower_flags, make_blank, move_to,
    push_command, push_keyboard_flags, push_title, raise_flags, scroll_region_down,
    scroll_region_up, set_cursor_position, set_visible, symbol_end, update_begin, update_end,
};
use ratatui_core::backend::{AsCell, ClearType};
use ratatui_core::layout::{Position, Size};
use std::alloc::{AllocError, Global};
use std::mem;
use std::ops::Range;

/// A backend's call that draws no cells.
#[derive(Drop)]
pub(crate) enum Call {
    Move(Position),
    Show(bool),
    Append(u16),
    ScrollUp(Range<u16>, u16),
    ScrollDown(Range<u16>, u16),
    Clear(ClearType),
    Command(Command),
    PushKeyboardFlags(KeyboardEnhancementFlags),
    AskSize,
}

/// A terminal's size, where its cursor is, whether that is shown, and which of its columns are
/// continuation columns, row by row; and what is to be sent to it.
#[derive(Drop)]
pub(crate) struct Tracker {
    pub(crate) size: Size,
    pub(crate) has_underline_colors: bool,
    pub(crate) ambiguous_is_wide: bool,
    pub(crate) is_synchronized: bool,
    pub(crate) cursor: Position,
    pub(crate) is_visible: bool,
    pub(crate) continuations: Vec<bool>,
    // The flags within a draw.
    pub(crate) draft: Vec<bool>,
    /// How many items were drawn, as far as the count goes.
    pub(crate) written: u64,
    pub(crate) out: String,
}

impl Tracker {
    /// Makes the tracker of a blank terminal of this size, and what makes one blank.
    pub(crate) fn new(alloc: Global, size: Size) -> Result<Tracker, AnsiError>
        ensures ok { IfOk result (BeginsBlank size) }
        ensures colors { IfOk result (λ k. k.has_underline_colors ≡ false) }
        ensures ambiguous { IfOk result (λ k. k.ambiguous_is_wide ≡ false) }
        ensures synchronized { IfOk result (λ k. k.is_synchronized ≡ false) }
        ensures size { OnOk result ((0 < size.width) × (0 < size.height)) }
        ensures refused { IfErr result (RefusesTracker size.width size.height) }
    {
        if size.width == 0 || size.height == 0 {
            return Err(AnsiError::Size);
        }
        let continuations = blank_flags(alloc, size)?;
        let draft = blank_flags(alloc, size)?;
        let mut out = String::new(alloc);
        make_blank(&mut out, size.width, size.height)?;
        Ok(Tracker {
            size,
            has_underline_colors: false,
            ambiguous_is_wide: false,
            is_synchronized: false,
            cursor: Position::ORIGIN,
            is_visible: true,
            continuations,
            draft,
            written: 0,
            out,
        })
    }

    // Moves the cursor, each of its column and row kept on the screen.
    fn move_cursor(&mut self, position: Position) -> Result<(), AllocError>
        requires { IsTracker self.old }
        ensures ok { OnOk result (Collects self.old
            (λ s t. t ≡ with_cursor position.x position.y s) self.new) }
        ensures err { OnErr result (KeepsTracked self.old self.new) }
    {
        set_cursor_position(&mut self.out, position.x, position.y)?;
        self.cursor = Position {
            x: position.x.min(self.size.width - 1),
            y: position.y.min(self.size.height - 1),
        };
        Ok(())
    }

    // Shows the cursor or hides it, if it isn't so already.
    fn show(&mut self, visible: bool) -> Result<(), AllocError>
        requires { IsTracker self.old }
        ensures ok { OnOk result (Collects self.old (λ s t. t ≡ with_visible visible s) self.new) }
        ensures err { OnErr result (KeepsTracked self.old self.new) }
    {
        if visible == self.is_visible {
            return Ok(());
        }
        set_visible(&mut self.out, visible)?;
        self.is_visible = visible;
        Ok(())
    }

    // Asks what changes nothing on the screen.
    fn command(&mut self, command: Command) -> Result<(), AllocError>
        requires { IsTracker self.old }
        ensures ok { OnOk result (Collects self.old (λ s t. t ≡ s) self.new) }
        ensures bytes { OnOk result (string_bytes self.new.out
            ≡ string_bytes self.old.out ++ command_bytes command) }
        ensures err { OnErr result (KeepsTracked self.old self.new) }
    {
        push_command(&mut self.out, command)
    }

    // Puts keyboard flags on the terminal's stack.
    fn push_keyboard_flags(&mut self, flags: KeyboardEnhancementFlags) -> Result<(), AllocError>
        requires { IsTracker self.old }
        ensures ok { OnOk result (Collects self.old (λ s t. t ≡ s) self.new) }
        ensures bytes { OnOk result (string_bytes self.new.out
            ≡ string_bytes self.old.out ++ keyboard_bytes flags) }
        ensures err { OnErr result (KeepsTracked self.old self.new) }
    {
        push_keyboard_flags(&mut self.out, flags)
    }

    /// Collects a title for the window, the first one or not, after what was collected before. If it
    /// is refused all else stays.
    pub(crate) fn title(&mut self, is_first: bool, title: &str) -> Result<(), AllocError>
        requires { IsTracker self.old }
        ensures ok { OnOk result (Collects self.old (λ s t. t ≡ s) self.new) }
        ensures bytes { OnOk result (string_bytes self.new.out
            ≡ string_bytes self.old.out ++ titled_bytes is_first title.now) }
        ensures err { OnErr result (KeepsTracked self.old self.new) }
    {
        push_title(&mut self.out, is_first, title)
    }

    // Asks for the terminal's size.
    fn ask_size(&mut self) -> Result<(), AllocError>
        requires { IsTracker self.old }
        ensures ok { OnOk result (Collects self.old (λ s t. t ≡ s) self.new) }
        ensures asks { OnOk result
            (string_bytes self.new.out
            ≡ string_bytes self.old.out ++ size_question self.old.cursor) }
        ensures err { OnErr result (KeepsTracked self.old self.new) }
    {
        ask_size(&mut self.out, self.cursor.x, self.cursor.y)
    }

    // Moves the cursor's row down by `n`, and scrolls what goes past the last row.
    fn append(&mut self, n: u16) -> Result<(), AllocError>
        requires { IsTracker self.old }
        ensures ok { OnOk result (Collects self.old (λ s t. Appends s n t) self.new) }
        ensures err { OnErr result (KeepsTracked self.old self.new) }
    {
        append_lines(&mut self.out, n)?;
        let size = self.size;
        let last = size.height - 1;
        let y = self.cursor.y;
        let flags = self.continuations.as_mut_slice();
        raise_flags(flags, size, 0..size.height, n.saturating_sub(last - y));
        self.cursor = Position {
            x: 0,
            y: y.saturating_add(n).min(last),
        };
        Ok(())
    }

    // Moves the rows of a region up; the cursor stays.
    fn scroll_up(&mut self, region: Range<u16>, n: u16) -> Result<(), AllocError>
        requires { IsTracker self.old }
        ensures ok { OnOk result (Collects self.old
            (ScrollsUp region.start region.end n) self.new) }
        ensures err { OnErr result (KeepsTracked self.old self.new) }
    {
        let size = self.size;
        scroll_region_up(&mut self.out, size.height, region.start..region.end, n)?;
        set_cursor_position(&mut self.out, self.cursor.x, self.cursor.y)?;
        raise_flags(self.continuations.as_mut_slice(), size, region, n);
        Ok(())
    }

    // Moves the rows of a region down; the cursor stays.
    fn scroll_down(&mut self, region: Range<u16>, n: u16) -> Result<(), AllocError>
        requires { IsTracker self.old }
        ensures ok { OnOk result (Collects self.old
            (ScrollsDown region.start region.end n) self.new) }
        ensures err { OnErr result (KeepsTracked self.old self.new) }
    {
        let size = self.size;
        scroll_region_down(&mut self.out, size.height, region.start..region.end, n)?;
        set_cursor_position(&mut self.out, self.cursor.x, self.cursor.y)?;
        lower_flags(self.continuations.as_mut_slice(), size, region, n);
        Ok(())
    }

    // Whether a clear would cut a symbol that has to stay, as one does from a cursor on that is in
    // a continuation column.
    fn cuts(&self, clear_type: ClearType) -> bool
        requires { IsTracker self.now }
        ensures { result ≡ is_clear_cut clear_type self.now.size.width
            self.now.cursor.x self.now.cursor.y self.now.continuations.items }
    {
        let Position { x, y } = self.cursor;
        match clear_type {
            ClearType::AfterCursor | ClearType::UntilNewLine => {
                is_continuation(self.continuations.as_slice(), self.size, x, y)
            }
            ClearType::All | ClearType::BeforeCursor | ClearType::CurrentLine => false,
        }
    }

    // Empties the screen; the cursor stays.
    fn clear_all(&mut self) -> Result<(), AllocError>
        requires { IsTracker self.old }
        ensures ok { OnOk result (Collects self.old (λ s t. Clears s All t) self.new) }
        ensures err { OnErr result (KeepsTracked self.old self.new) }
    {
        let Size { width, height } = self.size;
        clear_screen(&mut self.out, width, height, self.cursor.x, self.cursor.y)?;
        clear_flags(self.continuations.as_mut_slice());
        Ok(())
    }

    // Empties what a clear does for a cursor in column x and row y; the cursor stays where it is.
    fn clear_at(&mut self, clear_type: ClearType, x: u16, y: u16) -> Result<(), AllocError>
        requires tracker { IsTracker self.old }
        requires at_column { x < self.old.size.width }
        requires at_row { y < self.old.size.height }
        requires uncut { is_cut clear_type self.old.size.width x y
            self.old.continuations.items ≡ false }
        requires sure { keeps_history clear_type x y ≡ true }
        ensures ok { OnOk result (Collects self.old (Erases clear_type x y) self.new) }
        ensures err { OnErr result (KeepsTracked self.old self.new) }
    {
        let size = self.size;
        move_to(&mut self.out, x, y)?;
        erase(&mut self.out, clear_type)?;
        move_to(&mut self.out, self.cursor.x, self.cursor.y)?;
        clear_part_flags(self.continuations.as_mut_slice(), size, clear_type, x, y);
        Ok(())
    }

    // Empties a part of the screen; the cursor stays.
    fn clear(&mut self, clear_type: ClearType) -> Result<(), AllocError>
        requires tracker { IsTracker self.old }
        requires uncut { is_clear_cut clear_type self.old.size.width
            self.old.cursor.x self.old.cursor.y self.old.continuations.items ≡ false }
        ensures ok { OnOk result (Collects self.old (λ s t. Clears s clear_type t) self.new) }
        ensures err { OnErr result (KeepsTracked self.old self.new) }
    {
        let Position { x, y } = self.cursor;
        match clear_type {
            ClearType::All => self.clear_all(),
            ClearType::AfterCursor => {
                if x == 0 && y == 0 {
                    self.clear_all()
                } else {
                    self.clear_at(ClearType::AfterCursor, x, y)
                }
            }
            ClearType::BeforeCursor => {
                let end = symbol_end(self.continuations.as_slice(), self.size, x, y);
                self.clear_at(ClearType::BeforeCursor, end, y)
            }
            ClearType::CurrentLine => self.clear_at(ClearType::CurrentLine, x, y),
            ClearType::UntilNewLine => self.clear_at(ClearType::UntilNewLine, x, y),
        }
    }

    // The same, refused with the cursor's place if that would cut a symbol.
    fn clear_uncut(&mut self, clear_type: ClearType) -> Result<(), CellError>
        requires { IsTracker self.old }
        ensures ok { OnOk result (Collects self.old (λ s t. Clears s clear_type t) self.new) }
        ensures err { OnErr result (KeepsTracked self.old self.new) }
        ensures why { IfErr result (IsUncollected (Called.Clear clear_type) self.old) }
    {
        if self.cuts(clear_type) {
            return Err(CellError::Cut(self.cursor));
        }
        self.clear(clear_type)?;
        Ok(())
    }

    /// Collects what a call sends, after what was collected before. If it is refused all else
    /// stays.
    pub(crate) fn collect(&mut self, call: Call) -> Result<(), CellError>
        requires { IsTracker self.old }
        ensures ok { OnOk result (Collects self.old (CallDoes call) self.new) }
        ensures bytes { OnOk result
            (IsCommanded call self.old.cursor (string_bytes self.old.out)
            (string_bytes self.new.out)) }
        ensures err { OnErr result (KeepsTracked self.old self.new) }
        ensures why { IfErr result (IsUncollected call self.old) }
    {
        match call {
            Call::Move(position) => self.move_cursor(position)?,
            Call::Show(visible) => self.show(visible)?,
            Call::Append(n) => self.append(n)?,
            Call::ScrollUp(region, n) => self.scroll_up(region, n)?,
            Call::ScrollDown(region, n) => self.scroll_down(region, n)?,
            Call::Clear(clear_type) => self.clear_uncut(clear_type)?,
            Call::Command(command) => self.command(command)?,
            Call::PushKeyboardFlags(flags) => self.push_keyboard_flags(flags)?,
            Call::AskSize => self.ask_size()?,
        }
        Ok(())
    }

    // Draws cells: what is sent is collected, and their flags stand in the draft. Answers where the
    // cursor is then, and how many items were drawn.
    fn draft<C: AsCell, I: Iterator<Item = (u16, u16, C)>>(
        &mut self,
        content: I,
    ) -> Result<(Position, u64), CellError>
        requires tracker { IsTracker self.old }
        requires can { I.can_next content }
        requires finite { IsFinite (I.remaining content) }
        ensures ok { IfOk result (λ after. DraftsContent I.next_gives content (update_by C.cell)
            self.old after.0 after.1 self.new) }
        ensures placed { OnOk result (PlacesDraft self.old self.new) }
        ensures kept { KeepsTracked self.old self.new }
        ensures stopped { IfErr result
            (StopsDraft I.next_gives content (update_by C.cell) self.old) }
    {
        let draft = self.draft.as_mut_slice();
        draft.copy_from_slice(self.continuations.as_slice());
        let mut draw = Draw {
            out: &mut self.out,
            continuations: draft,
            target: Target {
                width: self.size.width,
                height: self.size.height,
                has_underline_colors: self.has_underline_colors,
            },
            state: DrawState {
                pen: Pen {
                    sgr: Sgr::DEFAULT,
                    at: None,
                    ambiguous_is_wide: self.ambiguous_is_wide,
                },
                cursor: self.cursor,
                written: self.written,
            },
        };
        draw.draw_cells(content)
    }

    // The same within a synchronized update.
    fn draft_update<C: AsCell, I: Iterator<Item = (u16, u16, C)>>(
        &mut self,
        content: I,
    ) -> Result<(Position, u64), CellError>
        requires tracker { IsTracker self.old }
        requires can { I.can_next content }
        requires finite { IsFinite (I.remaining content) }
        ensures ok { IfOk result (λ after. DraftsContent I.next_gives content (update_by C.cell)
            self.old after.0 after.1 self.new) }
        ensures within { OnOk result
            (IsWithinUpdate (string_bytes self.old.out) (string_bytes self.new.out)) }
        ensures placed { OnOk result (PlacesDraft self.old self.new) }
        ensures kept { KeepsTracked self.old self.new }
        ensures stopped { IfErr result
            (StopsDraft I.next_gives content (update_by C.cell) self.old) }
    {
        self.out.push_str(update_begin())?;
        let after = self.draft(content)?;
        self.out.push_str(update_end())?;
        Ok(after)
    }

    // The same within a synchronized update, if the terminal is sent these.
    fn draft_as_told<C: AsCell, I: Iterator<Item = (u16, u16, C)>>(
        &mut self,
        content: I,
    ) -> Result<(Position, u64), CellError>
        requires tracker { IsTracker self.old }
        requires can { I.can_next content }
        requires finite { IsFinite (I.remaining content) }
        ensures ok { IfOk result (λ after. DraftsContent I.next_gives content (update_by C.cell)
            self.old after.0 after.1 self.new) }
        ensures within { OnOk result (self.old.is_synchronized ≡ true
            → IsWithinUpdate (string_bytes self.old.out) (string_bytes self.new.out)) }
        ensures placed { OnOk result (PlacesDraft self.old self.new) }
        ensures kept { KeepsTracked self.old self.new }
        ensures stopped { IfErr result
            (StopsDraft I.next_gives content (update_by C.cell) self.old) }
    {
        if self.is_synchronized {
            self.draft_update(content)
        } else {
            self.draft(content)
        }
    }

    /// Collects what a draw of these cells sends, after what was collected before. If it is refused
    /// all else stays.
    pub(crate) fn draw<C: AsCell, I: Iterator<Item = (u16, u16, C)>>(
        &mut self,
        content: I,
    ) -> Result<(), CellError>
        requires tracker { IsTracker self.old }
        requires can { I.can_next content }
        requires finite { IsFinite (I.remaining content) }
        ensures ok { OnOk result (
            (items : List (ℕ × ℕ × C)) × Drains I.next_gives content items
            × Collects self.old (λ s t. Draws s (map (update_by C.cell) items) t) self.new
            × (list_all (is_sendable_on self.old.size.width self.old.size.height
            self.old.has_underline_colors) (map (update_by C.cell) items) ≡ true)) }
        ensures within { OnOk result (self.old.is_synchronized ≡ true
            → IsWithinUpdate (string_bytes self.old.out) (string_bytes self.new.out)) }
        ensures placed { OnOk result (PlacesDraft self.old self.new) }
        ensures err { OnErr result (KeepsTracked self.old self.new) }
        ensures stopped { IfErr result
            (StopsDraft I.next_gives content (update_by C.cell) self.old) }
    {
        let (cursor, written) = self.draft_as_told(content)?;
        mem::swap(&mut self.continuations, &mut self.draft);
        self.cursor = cursor;
        self.written = written;
        Ok(())
    }
}
