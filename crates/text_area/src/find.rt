//! Where a pattern occurs in a text.

ghost use Rattle.std.specs.Prelude.{◌≡◌, ◌+◌, ◌<◌, ◌≤◌, ℕ, length, take, drop, IfSome, IfNone};
ghost use Rattle.std.specs.Prelude.{true, false};
ghost use Rattle.std.specs.Str.{IsCharBoundary};
ghost use Rattle.text_area.specs.Areas.{AreaData, area_text, selection};
ghost use Rattle.text_area.specs.Finding.{IsFirstFrom, IsNowhereFrom, IsLastBefore};
ghost use Rattle.text_area.specs.Finding.{IsNowhereBefore};
ghost use Rattle.text_area.specs.Finding.{part_selected};

use crate::area::TextArea;

// Where a pattern occurs first from a byte on.
fn first_from(text: &str, from: usize, pattern: &str) -> Option<(usize, usize)>
    requires { IsCharBoundary text.now from }
    ensures some { IfSome result (λ part. IsFirstFrom pattern.now text.now from part.0) }
    ensures end { IfSome result (λ part. part.1 ≡ part.0 + length pattern.now) }
    ensures none { IfNone result (IsNowhereFrom pattern.now text.now from) }
{
    match text.split_at(from).1.find(pattern) {
        Some(at) => Some((from + at, from + at + pattern.len())),
        None => None,
    }
}

// Where a pattern occurs last before a byte.
fn last_before(text: &str, to: usize, pattern: &str) -> Option<(usize, usize)>
    requires { IsCharBoundary text.now to }
    ensures some { IfSome result (λ part. IsLastBefore pattern.now text.now to part.0) }
    ensures end { IfSome result (λ part. part.1 ≡ part.0 + length pattern.now) }
    ensures none { IfNone result (IsNowhereBefore pattern.now text.now to) }
{
    match text.split_at(to).0.rfind(pattern) {
        Some(at) => Some((at, at + pattern.len())),
        None => None,
    }
}

impl TextArea {
    /// Returns between which bytes of the text a pattern occurs first after what is selected, or
    /// after the cursor; or `None` if it doesn't occur there.
    pub fn find_next(&self, pattern: &str) -> Option<(usize, usize)>
        ensures some { IfSome result (λ part.
            IsFirstFrom pattern.now (area_text self.now) (selection self.now).1 part.0) }
        ensures end { IfSome result (λ part. part.1 ≡ part.0 + length pattern.now) }
        ensures none { IfNone result
            (IsNowhereFrom pattern.now (area_text self.now) (selection self.now).1) }
    {
        first_from(self.text(), self.selection().1, pattern)
    }

    /// Returns between which bytes of the text a pattern occurs last before what is selected, or
    /// before the cursor; or `None` if it doesn't occur there.
    pub fn find_former(&self, pattern: &str) -> Option<(usize, usize)>
        ensures some { IfSome result (λ part.
            IsLastBefore pattern.now (area_text self.now) (selection self.now).0 part.0) }
        ensures end { IfSome result (λ part. part.1 ≡ part.0 + length pattern.now) }
        ensures none { IfNone result
            (IsNowhereBefore pattern.now (area_text self.now) (selection self.now).0) }
    {
        last_before(self.text(), self.selection().0, pattern)
    }

    /// Selects the pattern where it occurs first after what is selected, or after the cursor, with
    /// the cursor at its end. It answers whether it occurs there; if it doesn't, all is as before.
    /// To replace it, type over it.
    ///
    /// ```
    /// if area.select_next("colour") {
    ///     area.insert_str("color")?;
    /// }
    /// ```
    pub fn select_next(&mut self, pattern: &str) -> bool
        ensures found { result ≡ true → (at : ℕ)
            × IsFirstFrom pattern.now (area_text self.old) (selection self.old).1 at
            × (self.new ≡ part_selected at (at + length pattern.now) self.old) }
        ensures missing { result ≡ false
            → IsNowhereFrom pattern.now (area_text self.old) (selection self.old).1 }
        ensures same { result ≡ false → self.new ≡ self.old }
    {
        match self.find_next(pattern) {
            Some((from, to)) => {
                self.select_part(from, to);
                true
            }
            None => false,
        }
    }

    /// Selects the pattern where it occurs last before what is selected, or before the cursor, with
    /// the cursor at its end. It answers whether it occurs there; if it doesn't, all is as before.
    pub fn select_former(&mut self, pattern: &str) -> bool
        ensures found { result ≡ true → (at : ℕ)
            × IsLastBefore pattern.now (area_text self.old) (selection self.old).0 at
            × (self.new ≡ part_selected at (at + length pattern.now) self.old) }
        ensures missing { result ≡ false
            → IsNowhereBefore pattern.now (area_text self.old) (selection self.old).0 }
        ensures same { result ≡ false → self.new ≡ self.old }
    {
        match self.find_former(pattern) {
            Some((from, to)) => {
                self.select_part(from, to);
                true
            }
            None => false,
        }
    }
}
