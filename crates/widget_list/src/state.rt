//! What a list keeps from one rendering to the next.

ghost use Rattle.std.specs.Prelude.{◌≡◌, ◌-◌, ◌+◌, min, unwrap_or, Some, None, Option, ℕ};
ghost use Rattle.std.specs.Borrow.{sem};
ghost use Rattle.widget_list.specs.States.{selecting, next_of, previous_of, LendsOffset, LendsSelected};

/// Which item is selected, and which is the first one shown.
#[derive(Debug, Default, Clone, Copy, PartialEq, Eq, Hash)]
pub struct ListState {
    pub(crate) offset: usize,
    pub(crate) selected: Option<usize>,
}

impl ListState {
    /// Sets the item that the state begins with.
    pub fn with_offset(mut self, offset: usize) -> ListState
        ensures { result ≡ record self { offset = offset } }
    {
        self.offset = offset;
        self
    }

    /// Sets the selected item.
    pub fn with_selected(mut self, selected: Option<usize>) -> ListState
        ensures { result ≡ record self { selected = selected } }
    {
        self.selected = selected;
        self
    }

    /// Returns the first item that is shown.
    pub fn offset(&self) -> usize
        ensures { result ≡ self.now.offset }
    {
        self.offset
    }

    /// Returns the first item that is shown, to be written.
    pub fn offset_mut(&mut self) -> &mut usize
        ensures* writes_back { sem 𝓛 (LendsOffset self.entry result) }
        ensures value { result.now ≡ self.old.offset }
    {
        &mut self.offset
    }

    /// Returns the selected item.
    pub fn selected(&self) -> Option<usize>
        ensures { result ≡ self.now.selected }
    {
        self.selected
    }

    /// Returns the selected item, to be written. The first item that is shown stays, also if none
    /// is selected.
    pub fn selected_mut(&mut self) -> &mut Option<usize>
        ensures* writes_back { sem 𝓛 (LendsSelected self.entry result) }
        ensures value { result.now ≡ self.old.selected }
    {
        &mut self.selected
    }

    /// Selects an item, or none: then the list begins with its first one again.
    pub fn select(&mut self, index: Option<usize>)
        ensures { self.new ≡ selecting index self.old }
    {
        self.selected = index;
        if index.is_none() {
            self.offset = 0;
        }
    }

    /// Selects the next item, or the first one.
    pub fn select_next(&mut self)
        ensures { self.new ≡ selecting (Some (next_of self.old.selected)) self.old }
    {
        let next = match self.selected {
            Some(index) => index.saturating_add(1),
            None => 0,
        };
        self.select(Some(next));
    }

    /// Selects the item before, or the last one: a rendering makes of too large a number the last
    /// item's.
    pub fn select_previous(&mut self)
        ensures { self.new ≡ selecting (Some (previous_of self.old.selected)) self.old }
    {
        let previous = match self.selected {
            Some(index) => index.saturating_sub(1),
            None => usize::MAX,
        };
        self.select(Some(previous));
    }

    /// Selects the first item.
    pub fn select_first(&mut self)
        ensures { self.new ≡ selecting (Some 0) self.old }
    {
        self.select(Some(0));
    }

    /// Selects the last item: a rendering makes of too large a number the last item's.
    pub fn select_last(&mut self)
        ensures { self.new ≡ selecting (Some usize.MAX) self.old }
    {
        self.select(Some(usize::MAX));
    }

    /// Selects the item so many further down.
    pub fn scroll_down_by(&mut self, amount: u16)
        ensures { let at = min (unwrap_or self.old.selected 0 + amount) usize.MAX in
            self.new ≡ selecting (Some at) self.old }
    {
        let selected = self.selected.unwrap_or(0);
        self.select(Some(selected.saturating_add(usize::from(amount))));
    }

    /// Selects the item so many further up.
    pub fn scroll_up_by(&mut self, amount: u16)
        ensures { let at = unwrap_or self.old.selected 0 - amount in
            self.new ≡ selecting (Some at) self.old }
    {
        let selected = self.selected.unwrap_or(0);
        self.select(Some(selected.saturating_sub(usize::from(amount))));
    }
}
