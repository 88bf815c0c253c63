//! The status in the last row of a page.

ghost use Rattle.std.specs.Prelude.{◌≡◌, length, ◌+◌, ◌-◌, ◌<◌, ◌≤◌, OnOk, IfOk};
ghost use Rattle.ratatui_core.specs.Layout.{IsInside};
ghost use Rattle.ratatui_core.specs.Buffer.{IsReadyAt, IsReadyFrom, IsSettledBuffer};
ghost use Rattle.ratatui_core.specs.Widgets.{ChangesWithin};
ghost use Rattle.widget_boxes.specs.Boxes.{IsBoxArea};
ghost use Rattle.pager.specs.Symbols.{reversed};
ghost use Rattle.pager.specs.Pages.{first_shown, last_shown, per_cent, filter_text, count_text, place_text};
ghost use Rattle.pager.specs.Pages.{byte_count, details_text, follow_text, wait_text};
ghost use Rattle.pager.specs.Pages.{note_name, note_text, first_part, second_part, PaintsText, PaintsStatus};

use crate::pager::{Mode, Note, Pager};
use crate::painting::paint_text;
use crate::symbols::reversed;
use arrayvec::ArrayString;
use itoa::Buffer as Digits;
use ratatui_core::buffer::Buffer;
use ratatui_core::layout::Rect;
use std::alloc::AllocError;

impl<'a> Pager<'a> {
    // The first line that is shown, from 1 on.
    fn first_shown(&self) -> u64
        ensures { result ≡ first_shown self.now }
    {
        (u64::from(self.top) + 1).min(u64::from(self.document.len()))
    }

    // The last line that is shown, from 1 on.
    fn last_shown(&self) -> u64
        ensures { result ≡ last_shown self.now }
    {
        let last = self.place_after(self.page_rows() - 1);
        (last.line as u64 + 1).min(u64::from(self.document.len()))
    }

    // How many of a hundred parts of the text end with the page.
    fn per_cent(&self) -> u64
        ensures { result ≡ per_cent self.now }
    {
        let count = u64::from(self.document.len());
        if count == 0 {
            100
        } else {
            self.last_shown() * 100 / count
        }
    }

    // Whether some lines are hidden.
    fn filter_text(&self) -> &'static str
        ensures text { result.now ≡ filter_text self.now }
        ensures short { length result.now ≤ 9 }
    {
        if self.whole.is_some() {
            " filtered"
        } else {
            ""
        }
    }

    // How many lines are known, and how many of a hundred parts of them end with the page.
    fn count_text(&self) -> ArrayString<40>
        ensures text { result.bytes ≡ count_text self.now }
        ensures short { length result.bytes ≤ 40 }
    {
        let mut digits = Digits::new();
        let mut text = ArrayString::new();
        text.push_str("/");
        text.push_str(digits.format(self.document.len()));
        if self.has_more {
            text.push_str("+");
        } else {
            text.push_str(" ");
            text.push_str(digits.format(self.per_cent()));
            text.push_str("%");
        }
        text
    }

    // The place, as it is shown.
    fn place_text(&self) -> ArrayString<100>
        ensures { result.bytes ≡ place_text self.now }
    {
        let mut digits = Digits::new();
        let mut text = ArrayString::new();
        text.push_str(" ");
        text.push_str(digits.format(self.first_shown()));
        text.push_str("-");
        text.push_str(digits.format(self.last_shown()));
        text.push_str(self.count_text().as_str());
        text.push_str(self.filter_text());
        text
    }

    // How many bytes the first lines take.
    fn byte_count(&self, lines: u64) -> u64
        ensures { result ≡ byte_count self.now lines }
    {
        self.document.bytes_before(lines)
    }

    // The place, and how many bytes of the text end with the page.
    fn details_text(&self) -> ArrayString<160>
        ensures { result.bytes ≡ details_text self.now }
    {
        let mut digits = Digits::new();
        let mut text = ArrayString::new();
        text.push_str(self.place_text().as_str());
        text.push_str(" bytes ");
        text.push_str(digits.format(self.byte_count(self.last_shown())));
        text.push_str("/");
        text.push_str(digits.format(self.byte_count(u64::from(self.document.len()))));
        text
    }

    // The place while the text is followed.
    fn follow_text(&self) -> ArrayString<160>
        ensures { result.bytes ≡ follow_text self.now }
    {
        let mut text = ArrayString::new();
        text.push_str(self.place_text().as_str());
        text.push_str(" follows: any key ends that");
        text
    }

    // The place while a command waits for lines.
    fn wait_text(&self) -> ArrayString<160>
        ensures { result.bytes ≡ wait_text self.now }
    {
        let mut text = ArrayString::new();
        text.push_str(self.place_text().as_str());
        text.push_str(" waits: any key ends that");
        text
    }

    // What the text is called, or that something isn't found or can't be sought.
    fn note_name(&self) -> &str
        ensures { result.now ≡ note_name self.now.note self.now }
    {
        match self.note {
            Note::Missing => "not found: ",
            Note::Refused => "not a pattern: ",
            _ => self.name.as_str(),
        }
    }

    // The first part of the status.
    fn first_part(&self) -> &str
        ensures { result.now ≡ first_part self.now.mode self.now }
    {
        match self.mode {
            Mode::Reading => self.note_name(),
            Mode::Asking if self.is_back => "?",
            Mode::Asking => "/",
            Mode::Filtering => "&",
            Mode::Marking => "mark",
            Mode::Returning => "go to mark",
            Mode::Turning => ":",
            Mode::Helping => "keys",
            Mode::Following => self.name.as_str(),
        }
    }

    // Paints the place, or what isn't found or can't be sought.
    fn paint_note(
        &self,
        room: u16,
        x: u16,
        y: u16,
        part: Rect,
        buf: &mut Buffer,
    ) -> Result<u16, AllocError>
        requires some { IsBoxArea part }
        requires inside { IsInside part buf.old.area }
        requires left { part.x ≤ x }
        requires right { x + room ≤ part.x + part.width }
        requires top { part.y ≤ y }
        requires bottom { y < part.y + part.height }
        ensures within { ChangesWithin part buf.old buf.new }
        ensures ok { OnOk result (PaintsText x y room reversed
            (note_text self.now.note self.now) buf.old buf.new) }
        ensures ready { IsReadyAt x y buf.old → IfOk result (λ end. IsReadyAt end y buf.new) }
    {
        let style = reversed();
        match self.note {
            Note::Range => paint_text(self.place_text().as_str(), room, style, x, y, part, buf),
            Note::Bytes => paint_text(self.details_text().as_str(), room, style, x, y, part, buf),
            Note::Missing => paint_text(self.sought.text(), room, style, x, y, part, buf),
            Note::Refused => paint_text(self.typed.text(), room, style, x, y, part, buf),
            Note::Waiting => paint_text(self.wait_text().as_str(), room, style, x, y, part, buf),
        }
    }

    // Paints what is typed of a search.
    fn paint_typed(
        &self,
        room: u16,
        x: u16,
        y: u16,
        part: Rect,
        buf: &mut Buffer,
    ) -> Result<u16, AllocError>
        requires some { IsBoxArea part }
        requires inside { IsInside part buf.old.area }
        requires left { part.x ≤ x }
        requires right { x + room ≤ part.x + part.width }
        requires top { part.y ≤ y }
        requires bottom { y < part.y + part.height }
        ensures within { ChangesWithin part buf.old buf.new }
        ensures ok { OnOk result (PaintsText x y room reversed
            (second_part Mode.Asking self.now) buf.old buf.new) }
        ensures ready { IsReadyAt x y buf.old → IfOk result (λ end. IsReadyAt end y buf.new) }
    {
        paint_text(self.typed.text(), room, reversed(), x, y, part, buf)
    }

    // Paints the second part of the status.
    fn paint_second(
        &self,
        room: u16,
        x: u16,
        y: u16,
        part: Rect,
        buf: &mut Buffer,
    ) -> Result<u16, AllocError>
        requires some { IsBoxArea part }
        requires inside { IsInside part buf.old.area }
        requires left { part.x ≤ x }
        requires right { x + room ≤ part.x + part.width }
        requires top { part.y ≤ y }
        requires bottom { y < part.y + part.height }
        ensures within { ChangesWithin part buf.old buf.new }
        ensures ok { OnOk result (PaintsText x y room reversed
            (second_part self.now.mode self.now) buf.old buf.new) }
        ensures ready { IsReadyAt x y buf.old → IfOk result (λ end. IsReadyAt end y buf.new) }
    {
        match self.mode {
            Mode::Reading => self.paint_note(room, x, y, part, buf),
            Mode::Asking | Mode::Filtering => self.paint_typed(room, x, y, part, buf),
            Mode::Marking => paint_text(": a letter", room, reversed(), x, y, part, buf),
            Mode::Returning => {
                let awaited = ": a letter, or ' for where the last jump began";
                paint_text(awaited, room, reversed(), x, y, part, buf)
            }
            Mode::Turning => {
                let awaited = " n for the next text, p for the one before, q for the end";
                paint_text(awaited, room, reversed(), x, y, part, buf)
            }
            Mode::Helping => {
                paint_text(": any key goes back", room, reversed(), x, y, part, buf)
            }
            Mode::Following => {
                paint_text(
                    self.follow_text().as_str(),
                    room,
                    reversed(),
                    x,
                    y,
                    part,
                    buf,
                )
            }
        }
    }

    // Paints the status in the last row.
    pub(crate) fn paint_status(&self, part: Rect, buf: &mut Buffer) -> Result<(), AllocError>
        requires some { IsBoxArea part }
        requires inside { IsInside part buf.old.area }
        ensures within { ChangesWithin part buf.old buf.new }
        ensures ok { let y = part.y + (part.height - 1) in
            OnOk result (PaintsStatus self.now part y buf.old buf.new) }
        ensures settled { IsReadyFrom (part.y + (part.height - 1)) buf.old
            → OnOk result (IsSettledBuffer buf.new) }
    {
        let y = part.y + (part.height - 1);
        let end = paint_text(
            self.first_part(),
            part.width,
            reversed(),
            part.x,
            y,
            part,
            buf,
        )?;
        let room = part.width - (end - part.x);
        self.paint_second(room, end, y, part, buf)?;
        Ok(())
    }
}
