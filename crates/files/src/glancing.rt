//! What a browser sees beside its folder.

ghost use Rattle.std.specs.Prelude.{◌≡◌, option_map};
ghost use Rattle.files.specs.Glances.{is_seen_at, current, seen_above, seen_ahead, glance_taken, may_see};
ghost use Rattle.files.specs.Glances.{lacks_above, lacks_ahead, is_wide, may_look, side_wanted};

use crate::browser::{Browser, Mode};
use crate::glance::{Glance, Side};
use crate::list::Row;

/// Returns whether a screen of so many columns has room for what is seen beside a folder.
pub(crate) fn is_wide(width: u16) -> bool
    ensures { result ≡ is_wide width }
{
    width >= 60
}

// Whether something can be seen of an entry: it is a folder, or a file.
fn may_see(row: &Row) -> bool
    ensures { result ≡ may_see row.now }
{
    !row.is_leaf || row.size.is_some()
}

impl Browser {
    // Whether a glance is one from the folder that is shown, and one ahead is at the entry that is
    // selected.
    fn is_seen_at(&self, side: Side, glance: &Glance) -> bool
        ensures { result ≡ is_seen_at side self.now glance.now }
    {
        let is_here = glance.folder.as_str() == self.folder.as_str();
        match side {
            Side::Above => is_here,
            Side::Ahead => is_here && glance.name.as_str() == self.selected_text(),
        }
    }

    // What was seen last on a side, if it is still there.
    fn current<'a>(&self, side: Side, glance: &'a Option<Glance>) -> Option<&'a Glance>
        ensures { option_map (λ it. it.now) result ≡ current side self.now glance.now }
    {
        match glance {
            Some(glance) if self.is_seen_at(side, glance) => Some(glance),
            _ => None,
        }
    }

    /// Returns what is seen of the folder above.
    pub(crate) fn seen_above(&self) -> Option<&Glance>
        ensures { option_map (λ it. it.now) result ≡ seen_above self.now }
    {
        self.current(Side::Above, &self.glances.above)
    }

    /// Returns what is seen of the entry that is selected.
    pub(crate) fn seen_ahead(&self) -> Option<&Glance>
        ensures { option_map (λ it. it.now) result ≡ seen_ahead self.now }
    {
        self.current(Side::Ahead, &self.glances.ahead)
    }

    /// Takes what is seen, unless something else is selected by now.
    pub(crate) fn take_glance(&mut self, glance: Glance)
        ensures { self.new ≡ glance_taken glance self.old }
    {
        if self.is_seen_at(glance.side, &glance) {
            self.glances.take(glance);
        }
    }

    // Whether the entry that is selected is to be looked at.
    fn lacks_ahead(&self) -> bool
        ensures { result ≡ lacks_ahead self.now }
    {
        match self.list.get(self.selected) {
            Some(row) => {
                may_see(row) && (self.glances.is_ahead_old || self.seen_ahead().is_none())
            }
            None => false,
        }
    }

    // Whether the folder above is to be looked at.
    fn lacks_above(&self) -> bool
        ensures { result ≡ lacks_above self.now }
    {
        self.folder.as_str() != self.base.as_str()
            && (self.glances.is_above_old || self.seen_above().is_none())
    }

    // Whether something may be looked at: no question stands, no key has come since a read found
    // nothing, and there is room for it.
    fn may_look(&self) -> bool
        ensures { result ≡ may_look self.now }
    {
        match self.mode {
            Mode::Looking => self.is_quiet && is_wide(self.size.width),
            _ => false,
        }
    }

    /// Returns the side at which is to be looked, if something is.
    pub(crate) fn side_wanted(&self) -> Option<Side>
        ensures { result ≡ side_wanted self.now }
    {
        if !self.may_look() {
            None
        } else if self.lacks_ahead() {
            Some(Side::Ahead)
        } else if self.lacks_above() {
            Some(Side::Above)
        } else {
            None
        }
    }
}
