//! What an inline viewport writes: its updates are followed while a backend takes them.

ghost use Rattle.std.specs.Prelude.{◌≡◌, IfSome, IfOk, OnOk};
ghost use Rattle.rtui_geometry.specs.Rect.{EdgesFit};
ghost use Rattle.rtui_buffer.specs.Shown.{buffer_updates};
ghost use Rattle.rtui_backend.specs.Failures.{Counts};
ghost use Rattle.rtui_terminal.specs.Writing.{WritesDifferences, last_place};

use rtui_backend::Backend;
use rtui_buffer::{Buffer, BufferDiff, Cell};
use rtui_geometry::Position;
use std::marker::{Brand, PhantomData};

// The place that is known after all updates of a draw. Only proofs have it: they name it before the
// draw begins, and so know what was told at its end, though the iterator was given away.
trait Behind {
    ghost use Rattle.rtui_geometry.specs.declared.position.Position.{Position};

    ghost place: { Position };
}

impl Behind for Brand {
    ghost place = { record { x = 0; y = 0 } };
}

// That place, told at the end of the updates.
#[derive(Drop)]
struct Told<P: Behind> {
    place: Position,
    of: PhantomData<P>,
    ghost behind: { place ≡ P.place },
}

// The updates that a draw has left, and the place that is known before them. A call of `next` that
// finds none left tells that place.
#[derive(Drop)]
struct Following<'told, 'prev, 'next, P: Behind> {
    updates: BufferDiff<'prev, 'next>,
    place: Position,
    told: &'told mut Option<Told<P>>,
    ghost behind: { last_place place updates ≡ P.place },
}

impl<'told, 'prev, 'next, P: Behind> Iterator for Following<'told, 'prev, 'next, P> {
    ghost use Rattle.std.specs.Iterator.{YieldsFirstBy, item_count};
    ghost use Rattle.rtui_cell.specs.Grid.{update_by};

    type Item = (u16, u16, &'next Cell);

    ghost next_gives = { YieldsFirstBy (update_by (λ cell. cell.now)) (λ left. left.updates) };

    ghost remaining = { item_count (λ left. left.updates) };

    fn next(&mut self) -> Option<(u16, u16, &'next Cell)> {
        match self.updates.next() {
            Some((x, y, cell)) => {
                self.place = Position { x, y };
                Some((x, y, cell))
            }
            None => {
                let place = self.place;
                *self.told = Some(Told {
                    place,
                    of: PhantomData,
                });
                None
            }
        }
    }
}

// Writes what differs between two buffers of one area, and answers the place that is known after
// it, if the backend saw that no update is left.
fn write_until_told<B: Backend, P: Behind>(
    backend: &mut B,
    previous: &Buffer,
    current: &Buffer,
    start: Position,
) -> Result<Option<Position>, B::Error>
    requires same { current.now.area ≡ previous.now.area }
    requires edges { EdgesFit previous.now.area }
    requires place { last_place start (buffer_updates previous.now current.now) ≡ P.place }
    ensures ok { OnOk result
        (WritesDifferences previous.now current.now (B.screen backend.old) (B.screen backend.new)) }
    ensures told { IfOk result (λ told. IfSome told (λ place. place ≡ P.place)) }
    ensures counts { Counts result (B.failures backend.old) (B.failures backend.new) }
{
    let mut told: Option<Told<P>> = None;
    backend.draw(Following {
        updates: previous.diff_iter(current),
        place: start,
        told: &mut told,
    })?;
    Ok(told.map(|told| told.place))
}

// The place of the last update from one buffer to another, or the given one if there is none.
fn last_update(previous: &Buffer, current: &Buffer, start: Position) -> Position
    requires { current.now.area ≡ previous.now.area }
    ensures { result ≡ last_place start (buffer_updates previous.now current.now) }
{
    let mut last = start;
    for (x, y, _) in previous.diff_iter(current) {
        last = Position { x, y };
    }
    last
}

// Writes what differs between two buffers of one area, and answers the place of the last update, or
// the given one if there is none. A backend sees that no update is left only by asking for one more,
// but its contract doesn't say that it asked: if it didn't, the updates are walked once more.
pub fn write_following<B: Backend>(
    backend: &mut B,
    previous: &Buffer,
    current: &Buffer,
    start: Position,
) -> Result<Position, B::Error>
    requires same { current.now.area ≡ previous.now.area }
    requires edges { EdgesFit previous.now.area }
    ensures ok { OnOk result
        (WritesDifferences previous.now current.now (B.screen backend.old) (B.screen backend.new)) }
    ensures last { IfOk result (λ last.
        last ≡ last_place start (buffer_updates previous.now current.now)) }
    ensures counts { Counts result (B.failures backend.old) (B.failures backend.new) }
{
    match write_until_told::<B, Brand>(backend, previous, current, start)? {
        Some(last) => Ok(last),
        None => Ok(last_update(previous, current, start)),
    }
}
