//! The events of a read.

ghost use Rattle.std.specs.Prelude.{◌≡◌, Bool, [], false, true, None, OnOk, OnErr, IfOk};
ghost use Rattle.ratatui_input.specs.Decoding.{decoded, some_list};
ghost use Rattle.ratatui_reads.specs.Reads.{told_by, all_updated, RefusesAmong, size_if, size_in, last_size};
ghost use Rattle.ratatui_reads.specs.Reads.{size_told};

use crate::updates::Updates;
use ratatui_events::Event;
use ratatui_input::{Decoder, Fed};
use std::alloc::AllocError;

/// What a read told: whether there were events, and the last size of the terminal, in columns and
/// rows, if there was one.
#[derive(Debug, Clone, Copy, PartialEq, Eq)]
pub struct Taken {
    pub any: bool,
    pub size: Option<(u16, u16)>,
}

/// The cells of the largest size that an event may tell.
pub const MOST_CELLS: u32 = 1_000_000;

// Columns and rows, if these are a size.
fn size_if(columns: u16, rows: u16) -> Option<(u16, u16)>
    ensures { result ≡ size_if columns rows }
{
    let cells = u32::from(columns) * u32::from(rows);
    if 0 < cells && cells <= MOST_CELLS {
        Some((columns, rows))
    } else {
        None
    }
}

/// Returns the size that an event tells, in columns and rows: the terminal's, or that up to the
/// last place, where the cursor was sent to ask for it. A size of no cell, or of more than
/// [`MOST_CELLS`], is none.
pub fn size_in(event: Event) -> Option<(u16, u16)>
    ensures { result ≡ size_in event }
{
    match event {
        Event::Size(columns, rows) => size_if(columns, rows),
        Event::Position(x, y) => size_if(x.saturating_add(1), y.saturating_add(1)),
        _ => None,
    }
}

// Takes an event, if there is one and the state isn't over, after what others told.
fn take_some<A: Updates>(
    state: &mut A,
    event: Option<Event>,
    before: Taken,
) -> Result<Taken, AllocError>
    ensures state { OnOk result (state.new
        ≡ all_updated A.Updates state.old (some_list event)) }
    ensures refused { OnErr result (RefusesAmong A.Updates
        (some_list event) state.old state.new) }
    ensures quiet { IfOk result (λ taken. taken.any ≡ false
        → (before.any ≡ false) × (some_list event ≡ [])) }
    ensures size { IfOk result (λ taken. taken.size
        ≡ last_size before.size (some_list event)) }
{
    match event {
        None => Ok(before),
        Some(event) => {
            if !state.is_over() {
                state.update(event)?;
            }
            let size = match size_in(event) {
                Some(size) => Some(size),
                None => before.size,
            };
            Ok(Taken { any: true, size })
        }
    }
}

// Takes the events of bytes.
fn take_bytes<A: Updates>(
    bytes: &[u8],
    decoder: &mut Decoder,
    state: &mut A,
) -> Result<Taken, AllocError>
    ensures decoder { OnOk result (decoder.new ≡ (decoded decoder.old bytes.now).1) }
    ensures state { OnOk result (state.new
        ≡ all_updated A.Updates state.old (decoded decoder.old bytes.now).0) }
    ensures refused { OnErr result (RefusesAmong A.Updates
        (decoded decoder.old bytes.now).0 state.old state.new) }
    ensures quiet { IfOk result (λ taken. taken.any ≡ false
        → (decoded decoder.old bytes.now).0 ≡ []) }
    ensures size { IfOk result (λ taken. taken.size
        ≡ last_size None (decoded decoder.old bytes.now).0) }
{
    let mut taken = Taken {
        any: false,
        size: None,
    };
    for byte in bytes {
        let Fed { cut, event } = decoder.feed(*byte);
        let first = take_some(state, cut, taken)?;
        taken = take_some(state, event, first)?;
    }
    Ok(taken)
}

/// Takes the events of a read. Where nothing came, what had come is taken as whole.
///
/// # Errors
///
/// `AllocError` if an update was refused memory, by an event that isn't light. The events before
/// that one are taken then.
pub fn take<A: Updates>(
    bytes: &[u8],
    decoder: &mut Decoder,
    state: &mut A,
) -> Result<Taken, AllocError>
    ensures decoder { OnOk result (decoder.new ≡ (told_by decoder.old bytes.now).1) }
    ensures state { OnOk result (state.new
        ≡ all_updated A.Updates state.old (told_by decoder.old bytes.now).0) }
    ensures refused { OnErr result (RefusesAmong A.Updates
        (told_by decoder.old bytes.now).0 state.old state.new) }
    ensures quiet { IfOk result (λ taken. taken.any ≡ false
        → (told_by decoder.old bytes.now).0 ≡ []) }
    ensures size { IfOk result (λ taken. taken.size ≡ size_told decoder.old bytes.now) }
{
    if bytes.is_empty() {
        let key = decoder.settle();
        take_some(
            state,
            key,
            Taken {
                any: false,
                size: None,
            },
        )
    } else {
        take_bytes(bytes, decoder, state)
    }
}
