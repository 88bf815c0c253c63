//! The backend's calls of the trait.

ghost use Rattle.std.specs.Prelude.{◌≡◌, ℕ, true, false, List, map, IfOk, IfErr, OnOk, OnErr};
ghost use Rattle.std.specs.List.{list_all};
ghost use Rattle.std.specs.Iterator.{IsFinite, Drains};
ghost use Rattle.ratatui_core.specs.Buffer.{update_by};
ghost use Rattle.ratatui_core.specs.Backend.{Counts, IsOnGrid, Draws, Appends, Clears, ScrollsUp};
ghost use Rattle.ratatui_core.specs.Backend.{ScrollsDown, with_visible, with_cursor, cursor_of, size_of, All};
ghost use Rattle.ansi_model.specs.Sends.{IsWithinUpdate};
ghost use Rattle.ansi_model.specs.Places.{PlacesEach};
ghost use Rattle.ratatui_ansi.specs.Backend.{shown_by, is_flushed};
ghost use Rattle.ratatui_ansi.specs.Cells.{is_sendable_on};
ghost use Rattle.ratatui_ansi.specs.Refusals.{Answers, StopsBy, StopsSending, IsOfWriting};
ghost use Rattle.ratatui_ansi.specs.Refusals.{IsOfFlushing, IsOfClearing};
ghost use Rattle.ratatui_ansi.specs.declared.error.AnsiError.TheVariants.{Broken};

use crate::backend::AnsiBackend;
use crate::error::AnsiError;
use crate::tracker::Call;
use ratatui_core::backend::{AsCell, Backend, ClearType, WindowSize};
use ratatui_core::layout::{Position, Size};
use std::io::Write;
use std::ops::Range;

impl<W: Write + Drop> Backend for AnsiBackend<W> {
    ghost use Rattle.ratatui_ansi.specs.Backend.{shown_by, is_flushed};
    ghost use Rattle.ratatui_ansi.specs.Refusals.{StopsSending};

    type Error = AnsiError;

    ghost screen = { shown_by };

    ghost failures = { λ b. b.failures };

    ghost is_flushed = { is_flushed };

    ghost stops_at = { StopsSending };

    #[tactic(auto, using(crate::proofs::RefusalLemmas::stops_sending))]
    fn draw<C: AsCell, I: Iterator<Item = (u16, u16, C)>>(
        &mut self,
        content: I,
    ) -> Result<(), AnsiError>
        requires can { I.can_next content }
        requires finite { IsFinite (I.remaining content) }
        ensures ok { OnOk result (
            (items : List (ℕ × ℕ × C)) × Drains I.next_gives content items
            × Draws (shown_by self.old) (map (update_by C.cell) items)
            (shown_by self.new)) }
        ensures sendable { OnOk result (
            (items : List (ℕ × ℕ × C)) × Drains I.next_gives content items
            × (list_all (is_sendable_on self.old.size.width self.old.size.height
            self.old.has_underline_colors) (map (update_by C.cell) items) ≡ true)) }
        ensures within { OnOk result (self.old.is_synchronized ≡ true
            → IsWithinUpdate self.old.sent self.new.sent) }
        ensures placed { OnOk result (self.old.ambiguous_is_wide ≡ true
            → PlacesEach self.old.sent self.new.sent) }
        ensures stopped { IfErr result (StopsBy I.next_gives content (update_by C.cell)
            self.old.has_underline_colors (shown_by self.old)) }
        ensures state { Answers result self.old self.new }
        ensures counts { Counts result self.old.failures self.new.failures }
        ensures stops { OnErr result (StopsSending self.old self.new) }
    {
        let failures = self.sender.begin()?;
        self.tracker.out.clear();
        self.tracker.draw(content)?;
        let is_synchronized = self.tracker.is_synchronized;
        let text = self.tracker.out.as_str();
        self.sender.send_draw(text, failures, is_synchronized)?;
        Ok(())
    }

    #[tactic(auto, using(crate::proofs::RefusalLemmas::stops_sending))]
    fn append_lines(&mut self, n: u16) -> Result<(), AnsiError>
        ensures ok { OnOk result (Appends (shown_by self.old) n (shown_by self.new)) }
        ensures why { IfErr result IsOfWriting }
        ensures state { Answers result self.old self.new }
        ensures counts { Counts result self.old.failures self.new.failures }
        ensures stops { OnErr result (StopsSending self.old self.new) }
    {
        self.send(Call::Append(n))
    }

    #[tactic(auto, using(crate::proofs::RefusalLemmas::stops_sending))]
    fn scroll_region_up(&mut self, region: Range<u16>, n: u16) -> Result<(), AnsiError>
        ensures ok { OnOk result (ScrollsUp region.start region.end n
            (shown_by self.old) (shown_by self.new)) }
        ensures why { IfErr result IsOfWriting }
        ensures state { Answers result self.old self.new }
        ensures counts { Counts result self.old.failures self.new.failures }
        ensures stops { OnErr result (StopsSending self.old self.new) }
    {
        self.send(Call::ScrollUp(region, n))
    }

    #[tactic(auto, using(crate::proofs::RefusalLemmas::stops_sending))]
    fn scroll_region_down(&mut self, region: Range<u16>, n: u16) -> Result<(), AnsiError>
        ensures ok { OnOk result (ScrollsDown region.start region.end n
            (shown_by self.old) (shown_by self.new)) }
        ensures why { IfErr result IsOfWriting }
        ensures state { Answers result self.old self.new }
        ensures counts { Counts result self.old.failures self.new.failures }
        ensures stops { OnErr result (StopsSending self.old self.new) }
    {
        self.send(Call::ScrollDown(region, n))
    }

    #[tactic(auto, using(crate::proofs::RefusalLemmas::stops_sending))]
    fn hide_cursor(&mut self) -> Result<(), AnsiError>
        ensures ok { OnOk result (shown_by self.new
            ≡ with_visible false (shown_by self.old)) }
        ensures why { IfErr result IsOfWriting }
        ensures state { Answers result self.old self.new }
        ensures counts { Counts result self.old.failures self.new.failures }
        ensures stops { OnErr result (StopsSending self.old self.new) }
    {
        self.send(Call::Show(false))
    }

    #[tactic(auto, using(crate::proofs::RefusalLemmas::stops_sending))]
    fn show_cursor(&mut self) -> Result<(), AnsiError>
        ensures ok { OnOk result (shown_by self.new
            ≡ with_visible true (shown_by self.old)) }
        ensures why { IfErr result IsOfWriting }
        ensures state { Answers result self.old self.new }
        ensures counts { Counts result self.old.failures self.new.failures }
        ensures stops { OnErr result (StopsSending self.old self.new) }
    {
        self.send(Call::Show(true))
    }

    #[tactic(auto, using(crate::proofs::RefusalLemmas::stops_sending))]
    fn get_cursor_position(&mut self) -> Result<Position, AnsiError>
        ensures ok { IfOk result (λ position.
            position ≡ cursor_of (shown_by self.old)) }
        ensures on_grid { OnOk result (IsOnGrid (shown_by self.old)) }
        ensures stays { OnOk result (shown_by self.new ≡ shown_by self.old) }
        ensures held { OnOk result (is_flushed self.new ≡ is_flushed self.old) }
        ensures why { IfErr result (λ error. error ≡ Broken) }
        ensures state { Answers result self.old self.new }
        ensures counts { Counts result self.old.failures self.new.failures }
        ensures stops { OnErr result (StopsSending self.old self.new) }
    {
        self.sender.check()?;
        Ok(self.tracker.cursor)
    }

    #[tactic(auto, using(crate::proofs::RefusalLemmas::stops_sending))]
    fn set_cursor_position(&mut self, position: Position) -> Result<(), AnsiError>
        ensures ok { OnOk result (shown_by self.new
            ≡ with_cursor position.x position.y (shown_by self.old)) }
        ensures why { IfErr result IsOfWriting }
        ensures state { Answers result self.old self.new }
        ensures counts { Counts result self.old.failures self.new.failures }
        ensures stops { OnErr result (StopsSending self.old self.new) }
    {
        self.send(Call::Move(position))
    }

    #[tactic(auto, using(crate::proofs::RefusalLemmas::stops_sending))]
    fn clear(&mut self) -> Result<(), AnsiError>
        ensures ok { OnOk result (Clears (shown_by self.old) All
            (shown_by self.new)) }
        ensures why { IfErr result (IsOfClearing (shown_by self.old)) }
        ensures state { Answers result self.old self.new }
        ensures counts { Counts result self.old.failures self.new.failures }
        ensures stops { OnErr result (StopsSending self.old self.new) }
    {
        self.clear_region(ClearType::All)
    }

    #[tactic(auto, using(crate::proofs::RefusalLemmas::stops_sending))]
    fn clear_region(&mut self, clear_type: ClearType) -> Result<(), AnsiError>
        ensures ok { OnOk result (Clears (shown_by self.old) clear_type
            (shown_by self.new)) }
        ensures why { IfErr result (IsOfClearing (shown_by self.old)) }
        ensures state { Answers result self.old self.new }
        ensures counts { Counts result self.old.failures self.new.failures }
        ensures stops { OnErr result (StopsSending self.old self.new) }
    {
        self.send(Call::Clear(clear_type))
    }

    #[tactic(auto, using(crate::proofs::RefusalLemmas::stops_sending))]
    fn size(&mut self) -> Result<Size, AnsiError>
        ensures ok { IfOk result (λ size. size ≡ size_of (shown_by self.old)) }
        ensures stays { OnOk result (shown_by self.new ≡ shown_by self.old) }
        ensures held { OnOk result (is_flushed self.new ≡ is_flushed self.old) }
        ensures why { IfErr result (λ error. error ≡ Broken) }
        ensures state { Answers result self.old self.new }
        ensures counts { Counts result self.old.failures self.new.failures }
        ensures stops { OnErr result (StopsSending self.old self.new) }
    {
        self.sender.check()?;
        Ok(self.tracker.size)
    }

    #[tactic(auto, using(crate::proofs::RefusalLemmas::stops_sending))]
    fn window_size(&mut self) -> Result<WindowSize, AnsiError>
        ensures ok { IfOk result (λ window.
            window.columns_rows ≡ size_of (shown_by self.old)) }
        ensures pixels { IfOk result (λ window.
            window.pixels ≡ record { width = 0; height = 0 }) }
        ensures stays { OnOk result (shown_by self.new ≡ shown_by self.old) }
        ensures held { OnOk result (is_flushed self.new ≡ is_flushed self.old) }
        ensures why { IfErr result (λ error. error ≡ Broken) }
        ensures state { Answers result self.old self.new }
        ensures counts { Counts result self.old.failures self.new.failures }
        ensures stops { OnErr result (StopsSending self.old self.new) }
    {
        let columns_rows = self.size()?;
        Ok(WindowSize {
            columns_rows,
            pixels: Size::ZERO,
        })
    }

    #[tactic(auto, using(crate::proofs::RefusalLemmas::stops_sending))]
    fn flush(&mut self) -> Result<(), AnsiError>
        ensures ok { OnOk result (shown_by self.new ≡ shown_by self.old) }
        ensures flushed { OnOk result (is_flushed self.new ≡ true) }
        ensures sent { OnOk result (self.new.sent ≡ self.old.sent) }
        ensures why { IfErr result IsOfFlushing }
        ensures state { Answers result self.old self.new }
        ensures counts { Counts result self.old.failures self.new.failures }
        ensures stops { OnErr result (StopsSending self.old self.new) }
    {
        let failures = self.sender.begin()?;
        self.sender.flush(failures)?;
        Ok(())
    }
}
