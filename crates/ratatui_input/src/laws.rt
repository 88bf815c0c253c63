//! Laws of the decoder: what holds of every decoder and all bytes.

ghost use Rattle.std.specs.Prelude.{◌≡◌, ◌⊎◌, ◌<◌, ◌≤◌, ◌+◌, ℕ, ◌++◌, ◌∷◌, [], List, Bool, false, true, map, length};
ghost use Rattle.ratatui_events.specs.Key.{pressed, held};
ghost use Rattle.ratatui_events.specs.declared.event.Event.{Event};
ghost use Rattle.ratatui_events.specs.declared.event.Event.TheVariants.{Key, PasteBegun, PasteEnded, Pasted};
ghost use Rattle.ratatui_events.specs.declared.event.Event.TheVariants.{Unknown};
ghost use Rattle.ratatui_events.specs.declared.key.KeyCode.TheVariants.{Esc};
ghost use Rattle.ratatui_input.specs.Encodings.{fresh_decoder, Gives, in_brackets, AreNoKeys};
ghost use Rattle.ratatui_input.specs.Encodings.{AreTextCharacters};
ghost use Rattle.ratatui_input.specs.Encodings.{HaveEnd};
ghost use Rattle.ratatui_input.specs.Encodings.{settled_after};
ghost use Rattle.ratatui_input.specs.Encodings.{IsNoText, IsNoString, FollowsEscape};
ghost use Rattle.ratatui_input.specs.Grammar.{Encodes, StandsForNothing, IsOpener};
ghost use Rattle.ratatui_input.specs.Pieces.{AreBytes, IsReadInPieces, Tolerates};
ghost use Rattle.ratatui_input.specs.Keys.{typed_key, with_alt};
ghost use Rattle.ratatui_input.specs.Decoding.{decoded, next_told, byte_told, escaped, cut, settled};
ghost use Rattle.ratatui_input.specs.Decoding.{some_list, told_event};
ghost use Rattle.ratatui_input.specs.declared.decoder.Decoder.{Decoder};
ghost use Rattle.ratatui_input.specs.declared.decoder.State.{State};
ghost use Rattle.ratatui_input.specs.declared.decoder.State.TheVariants.{Ground, Escape, Bracket, Single};
ghost use Rattle.ratatui_input.specs.declared.decoder.State.TheVariants.{Opened, Text, TextEscape};

/// Bytes in two pieces give what they give at once, and so do bytes in any pieces.
pub fn pieces_give_the_whole()
    ensures { (d : Decoder) (a b : List ℕ) → decoded d (a ++ b) ≡ next_told (decoded d a) b }
{}

/// Whatever has come, but text of a string, ESC begins anew: what had come is told as one event,
/// and no byte of what follows is taken for a part of it.
pub fn escape_begins_anew()
    ensures { (state : State) (p : Bool) → IsNoText state
        → byte_told (record { state = state; is_pasting = p }) 27 ≡ escaped (cut state) p }
{}

/// What stands for events stands for them whatever comes before or after it.
pub fn events_are_read_one_by_one()
    ensures before { (a rest : List ℕ) (xs : List Event) → Gives a xs
        → decoded fresh_decoder (a ++ rest)
        ≡ (xs ++ (decoded fresh_decoder rest).0, (decoded fresh_decoder rest).1) }
    ensures append { (a b : List ℕ) (xs ys : List Event)
        → Gives a xs → Gives b ys → Gives (a ++ b) (xs ++ ys) }
{}

/// Outside a paste, all from ESC on is read as if nothing had come before; what had come is told as
/// one event at most. So it is within a string, too, if the next byte goes on with the ESC and
/// doesn't end the string with it, as a backslash does.
pub fn from_escape_on_nothing_is_lost()
    ensures outside { (state : State) (rest : List ℕ) → IsNoText state
        → decoded (record { state = state; is_pasting = false }) (27 ∷ rest)
        ≡ (
          some_list (cut state) ++ (decoded fresh_decoder (27 ∷ rest)).0,
          (decoded fresh_decoder (27 ∷ rest)).1,
        ) }
    ensures string { (has_bell : Bool) (ticks b : ℕ) (rest : List ℕ) → FollowsEscape b
        → decoded (record { state = Text has_bell ticks; is_pasting = false }) (27 ∷ b ∷ rest)
        ≡ (
          Unknown ∷ (decoded fresh_decoder (27 ∷ b ∷ rest)).0,
          (decoded fresh_decoder (27 ∷ b ∷ rest)).1,
        ) }
{}

/// A text in brackets is told character by character. Within a paste no byte tells a key, nor does
/// settling, and the paste goes on until its end is told.
pub fn what_is_pasted_is_no_key()
    ensures text { (text : List ℕ) → AreTextCharacters text → decoded fresh_decoder (in_brackets text)
        ≡ (PasteBegun ∷ (map Pasted text ++ (PasteEnded ∷ [])), fresh_decoder) }
    ensures keys { (state : State) (b : ℕ)
        → AreNoKeys (byte_told (record { state = state; is_pasting = true }) b).0 }
    ensures goes_on { (state : State) (b : ℕ)
        → ((byte_told (record { state = state; is_pasting = true }) b).1.is_pasting ≡ true)
        ⊎ HaveEnd (byte_told (record { state = state; is_pasting = true }) b).0 }
    ensures settled { (state : State)
        → AreNoKeys (settled state (record { state = state; is_pasting = true })).0 }
{}

/// The bytes of each encoding of an event are read as that event alone: by themselves, among others,
/// and, if they begin with ESC, whatever has come of an event that isn't whole, but text of a
/// string.
pub fn encodings_are_read()
    ensures alone { (bytes : List ℕ) (event : Event) → Encodes bytes event → Gives bytes (event ∷ []) }
    ensures among { (before bytes after : List ℕ) (events : List Event) (event : Event)
        → Gives before events → Encodes bytes event
        → decoded fresh_decoder ((before ++ bytes) ++ after)
        ≡ ((events ++ (event ∷ [])) ++ (decoded fresh_decoder after).0, (decoded fresh_decoder after).1) }
    ensures anyhow { (state : State) (bytes after : List ℕ) (event : Event) → IsNoText state
        → Encodes (27 ∷ bytes) event
        → decoded (record { state = state; is_pasting = false }) (27 ∷ (bytes ++ after))
        ≡ (
          some_list (cut state) ++ (event ∷ (decoded fresh_decoder after).0),
          (decoded fresh_decoder after).1,
        ) }
{}

/// Bytes that belong together and stand for nothing are told as one unknown event, and nothing
/// else; strings of the terminal are such bytes.
pub fn other_bytes_are_unknown()
    ensures { (bytes : List ℕ) → StandsForNothing bytes → Gives bytes (Unknown ∷ []) }
{}

/// Whatever bytes are read, they are pieces, one for each event that is told, in order, and then bytes
/// that tell nothing yet: no byte is lost, and none is read twice. Outside a paste a piece is bytes
/// that stand for its event: by the grammar, by a sequence with further numbers, or as ESC, ESC [,
/// ESC O or ESC and what opens a string by themselves. Unknown is told of bytes that stand for
/// nothing, and of the end of a paste that hasn't begun, and of nothing else. Within a paste an
/// event is the character of a key, the paste's end, or unknown.
pub fn what_is_read_is_pieces()
    ensures { (bytes : List ℕ) → AreBytes bytes → IsReadInPieces false bytes (decoded fresh_decoder bytes) }
{}

/// A sequence with more, or other, numbers than the protocols send is read as its event alone: the
/// numbers that no event has use for mean nothing.
pub fn further_numbers_mean_nothing()
    ensures { (p : Bool) (bytes : List ℕ) (event : Event) → Tolerates bytes event
        → decoded (record { state = Ground; is_pasting = p }) bytes ≡ told_event event Ground p }
{}

/// A byte tells two events at most.
pub fn a_byte_tells_two_events_at_most()
    ensures { (d : Decoder) (b : ℕ) → length (byte_told d b).0 ≤ 2 }
{}

/// Settling takes ESC, ESC [, ESC O and ESC with what opens a string for keys. The tenth in a row
/// with no byte between ends a string; where ESC has come within it, the first one does, and ESC is
/// left. Settling leaves all else as it is.
pub fn settling_ends_keys_and_strings()
    ensures escape { settled_after (27 ∷ []) ≡ (Key (pressed Esc (held 0)) ∷ [], fresh_decoder) }
    ensures bracket { settled_after (27 ∷ 91 ∷ []) ≡ (with_alt (typed_key 91) true ∷ [], fresh_decoder) }
    ensures single { settled_after (27 ∷ 79 ∷ []) ≡ (with_alt (typed_key 79) true ∷ [], fresh_decoder) }
    ensures opener { (b : ℕ) → IsOpener b
        → settled_after (27 ∷ b ∷ []) ≡ (with_alt (typed_key b) true ∷ [], fresh_decoder) }
    ensures waits { (has_bell : Bool) (ticks : ℕ) (p : Bool) → ticks < 9
        → settled (Text has_bell ticks) (record { state = Text has_bell ticks; is_pasting = p })
        ≡ ([], record { state = Text has_bell (ticks + 1); is_pasting = p }) }
    ensures over { (has_bell : Bool) (ticks : ℕ) (p : Bool) → 9 ≤ ticks
        → settled (Text has_bell ticks) (record { state = Text has_bell ticks; is_pasting = p })
        ≡ told_event Unknown Ground p }
    ensures ended { (p : Bool)
        → settled TextEscape (record { state = TextEscape; is_pasting = p })
        ≡ told_event Unknown Escape p }
    ensures others { (state : State) (p : Bool) → (state ≡ Escape → ⊥) → (state ≡ Bracket → ⊥)
        → (state ≡ Single 0 → ⊥) → ((b : ℕ) → state ≡ Opened b → ⊥) → IsNoString state
        → settled state (record { state = state; is_pasting = p })
        ≡ ([], record { state = state; is_pasting = p }) }
{}
