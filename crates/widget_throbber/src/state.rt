//! How far a throbber has turned.

ghost use Rattle.std.specs.Prelude.{◌≡◌, ◌<◌, ◌^◌, pos};
ghost use Rattle.widget_throbber.specs.Sets.{steps_on, symbol_number};

/// How far a throbber has turned.
///
/// ```
/// let mut state = ThrobberState::new();
/// state.calc_next();
/// ```
#[derive(Debug, Default, Clone, Copy, PartialEq, Eq, Hash)]
pub struct ThrobberState {
    index: i64,
}

impl ThrobberState {
    /// Makes a state that means the first symbol of each set.
    pub fn new() -> ThrobberState
        ensures { result ≡ record { index = pos 0 } }
    {
        ThrobberState { index: 0 }
    }

    /// Returns how many steps it has gone on, less than 0 if it has gone back.
    pub fn index(&self) -> i64
        ensures { result ≡ self.now.index }
    {
        self.index
    }

    /// Goes one step on, to the next symbol.
    pub fn calc_next(&mut self)
        ensures { self.new ≡ record { index = steps_on self.old.index (pos 1) } }
    {
        self.calc_step(1);
    }

    /// Goes so many steps on, or back if they are negative.
    pub fn calc_step(&mut self, step: i8)
        ensures { self.new ≡ record { index = steps_on self.old.index step } }
    {
        self.index = self.index.saturating_add(i64::from(step));
    }

    // Which of so many symbols the index means.
    pub(crate) fn number(&self, count: usize) -> usize
        requires some { 0 < count }
        requires small { count < 2 ^ 63 }
        ensures value { result ≡ symbol_number self.now.index count }
        ensures bound { result < count }
    {
        self.index.rem_euclid(count as i64) as usize
    }
}
