//! Laws of the texts of keys.

ghost use Rattle.std.specs.Prelude.{◌≡◌, map, Some};
ghost use Rattle.ratatui_events.specs.Key.{pressed, held};
ghost use Rattle.ratatui_events.specs.Parsing.{all_held, reads_back};
ghost use Rattle.ratatui_events.specs.declared.key.KeyCode.TheVariants.{Up};
ghost use Rattle.ratatui_events.specs.declared.parsing.TheConstants.{NAMED};

/// Each key that has a name is read back from its text; and so is a key with any of the six keys held
/// beside it, as Up is.
pub fn keys_are_read_back()
    ensures names { map (reads_back 0) NAMED ≡ map (λ code. Some (pressed code (held 0))) NAMED }
    ensures held { map (λ bits. reads_back bits Up) all_held
        ≡ map (λ bits. Some (pressed Up (held bits))) all_held }
{}
