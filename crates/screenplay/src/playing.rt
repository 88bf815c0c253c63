//! Playing the steps of a script.

ghost use Rattle.std.specs.Prelude.{◌≡◌, ◌↔◌, ◌++◌, ◌∷◌, [], IsTrue, None, IfOk, IfErr, OnOk, OnErr, map};
ghost use Rattle.rtui_backend.specs.TestBackend.{screen_of};
ghost use Rattle.rtui_viewport.specs.Viewports.{IsInline};
ghost use Rattle.rtui_terminal.specs.Writing.{Applies};
ghost use Rattle.rtui_terminal.specs.Insertion.{inserted_area};
ghost use Rattle.screenplay.specs.declared.scene.PlayCause.TheVariants.{Memory};
ghost use Rattle.rtui_buffer.specs.Shown.{IsSettledBuffer};
ghost use Rattle.rtui_buffer.specs.BufferData.{IsEmptied};
ghost use Rattle.screenplay.specs.Puts.{with_put, with_puts};
ghost use Rattle.screenplay.specs.Run.{IsGoodStage, IsFrame, text_area, IsCauseOfStep, IsRun, EndsEarly};
ghost use Rattle.screenplay.specs.Run.{IsStart};
ghost use Rattle.screenplay.specs.Playing.{IsPlaying};
ghost use Rattle.screenplay.specs.Inner.{IsSceneOf, TakesNewSize, IsSizedFor, InsertsBuffer};
ghost use Rattle.screenplay.specs.Playing.{Plays, view_in};
ghost use Rattle.screenplay.specs.Print.{step_of};
ghost use Rattle.rtui_geometry.specs.declared.rect.Rect.{Rect};
ghost use Rattle.screenplay.specs.declared.scene.Scene.{Scene};
ghost use Rattle.screenplay.specs.declared.scene.Stage.{Stage};
ghost use Rattle.screenplay.specs.declared.scene.Step.{Step};
ghost use Rattle.screenplay.specs.declared.scene.Step.TheVariants.{Draw, Insert, Clear};

use crate::act::Plan;
use crate::scene::{PlayCause, PlayFault, Puts, Scene, Stage, Step};
use rtui_backend::{TestBackend, TestError};
use rtui_buffer::{Buffer, Cell};
use rtui_geometry::{Position, Rect, Size};
use rtui_terminal::{Terminal, TerminalError, TerminalOptions};
use rtui_text::Text;
use rtui_viewport::Viewport;
use rtui_widgets::Widget;
use std::alloc::{AllocError, Global};

// Sets a character at a place of the screen, if the buffer has it.
fn set_put(alloc: Global, buffer: &mut Buffer, x: u16, y: u16, ch: char) -> Result<(), AllocError>
    ensures { OnOk result (buffer.new ≡ with_put (x, y, ch) buffer.old) }
{
    if let Some(cell) = buffer.cell_mut(Position { x, y }) {
        cell.set_char(alloc, ch)?;
    }
    Ok(())
}

// Sets characters in order.
fn set_puts(alloc: Global, buffer: &mut Buffer, puts: &[(u16, u16, char)]) -> Result<(), AllocError>
    ensures { OnOk result (buffer.new ≡ with_puts puts.now buffer.old) }
{
    for (x, y, ch) in puts {
        set_put(alloc, buffer, *x, *y, *ch)?;
    }
    Ok(())
}

// Paints a frame on an empty buffer, and answers whether it is settled.
fn paint(
    alloc: Global,
    frame: &mut Buffer,
    text: &Text<'_>,
    puts: &Puts,
) -> Result<bool, AllocError>
    ensures painted { OnOk result ((area : Rect)
        → IsEmptied area frame.old → IsFrame area text.now puts.now frame.new) }
    ensures settled { IfOk result (λ settled. IsTrue settled ↔ IsSettledBuffer frame.new) }
{
    let area = *frame.area();
    text.render(area, frame)?;
    set_puts(alloc, frame, puts.as_slice())?;
    Ok(frame.is_settled())
}

/// Makes a terminal over a blank stage.
///
/// # Conditions
///
/// The stage has columns and rows, and its viewport has a place on it.
///
/// # Errors
///
/// Those of [`Terminal::with_options`], and `Memory` if memory is refused for the screen.
pub fn open(alloc: Global, stage: Stage) -> Result<Terminal<TestBackend>, TerminalError<TestError>>
    requires { IsGoodStage stage }
    ensures { IfOk result (λ t. IsPlaying stage t × IsStart stage (view_in t)) }
{
    let backend = TestBackend::new(alloc, stage.width, stage.height)?;
    let options = TerminalOptions {
        viewport: stage.viewport,
    };
    Terminal::with_options(alloc, backend, options)
}

// Gives the screen another size, and resizes the terminal to it.
fn resize(terminal: &mut Terminal<TestBackend>, size: Size) -> Result<(), TerminalError<TestError>>
    ensures { OnOk result (TakesNewSize size terminal.old terminal.new) }
{
    terminal.backend_mut().resize(size.width, size.height)?;
    terminal.resize(Rect {
        x: 0,
        y: 0,
        width: size.width,
        height: size.height,
    })?;
    Ok(())
}

// Gives the screen a size, if there is one, and the viewport isn't fixed.
fn take_size(
    terminal: &mut Terminal<TestBackend>,
    viewport: Viewport,
    size: Option<Size>,
) -> Result<(), TerminalError<TestError>>
    ensures { OnOk result ((stage : Stage) → stage.viewport ≡ viewport
        → IsPlaying stage terminal.old
        → IsPlaying stage terminal.new × IsSizedFor stage size terminal.old terminal.new) }
{
    let Some(size) = size else {
        return Ok(());
    };
    if let Viewport::Fixed(_) = viewport {
        return Ok(());
    }
    if terminal.backend().buffer().area().as_size() == size {
        return Ok(());
    }
    resize(terminal, size)
}

// Draws the current buffer.
fn apply(terminal: &mut Terminal<TestBackend>) -> Result<(), PlayCause>
    ensures ok { OnOk result (Applies screen_of None terminal.old terminal.new) }
    ensures err { IfErr result (λ cause. cause ≡ Memory) }
{
    terminal.apply_buffer()?;
    Ok(())
}

// Paints a frame of a text and puts, and draws it if it is settled: a draw that gives no size.
fn draw_frame(
    alloc: Global,
    terminal: &mut Terminal<TestBackend>,
    text: &Text<'_>,
    puts: &Puts,
) -> Result<(), PlayCause>
    ensures ok { OnOk result ((stage : Stage) → IsPlaying stage terminal.old
        → Plays stage (Draw None text.now puts.now) terminal.old terminal.new) }
    ensures err { IfErr result (λ cause. (stage : Stage) → IsPlaying stage terminal.old
        → IsCauseOfStep stage (Draw None text.now puts.now) (view_in terminal.old) cause) }
{
    let area = terminal.viewport_area();
    if !paint(alloc, terminal.current_buffer_mut(), text, puts)? {
        return Err(PlayCause::Unsettled(area));
    }
    apply(terminal)
}

// Draws a frame on a screen that takes a size before, if there is one.
fn draw(
    alloc: Global,
    terminal: &mut Terminal<TestBackend>,
    viewport: Viewport,
    size: Option<Size>,
    text: &Text<'_>,
    puts: &Puts,
) -> Result<(), PlayCause>
    ensures ok { OnOk result ((stage : Stage) → stage.viewport ≡ viewport → IsGoodStage stage
        → IsPlaying stage terminal.old
        → Plays stage (Draw size text.now puts.now) terminal.old terminal.new) }
    ensures err { IfErr result (λ cause. (stage : Stage) → stage.viewport ≡ viewport
        → IsPlaying stage terminal.old
        → IsCauseOfStep stage (Draw size text.now puts.now) (view_in terminal.old) cause) }
{
    take_size(terminal, viewport, size)?;
    draw_frame(alloc, terminal, text, puts)
}

// The rows of a text over this many columns, and whether they are settled.
fn text_rows(alloc: Global, width: u16, text: &Text<'_>) -> Result<(Buffer, bool), AllocError>
    ensures made { IfOk result (λ rows. IsFrame (text_area width text.now) text.now [] rows.0) }
    ensures settled { IfOk result (λ rows. IsTrue rows.1 ↔ IsSettledBuffer rows.0) }
{
    let height = text.height().min(65535) as u16;
    let area = Rect {
        x: 0,
        y: 0,
        width,
        height,
    };
    let mut rows = Buffer::empty(alloc, area)?;
    let settled = paint(alloc, &mut rows, text, &Puts::new(alloc))?;
    Ok((rows, settled))
}

// Inserts the rows of a buffer above an inline viewport of its width.
fn insert_rows(terminal: &mut Terminal<TestBackend>, rows: Buffer) -> Result<(), PlayCause>
    ensures ok { OnOk result (IsInline terminal.old.viewport
        → rows.area ≡ inserted_area terminal.old rows.area.height
        → InsertsBuffer rows terminal.old terminal.new) }
    ensures err { IfErr result (λ cause. cause ≡ Memory) }
{
    let height = rows.area().height;
    let inserted = terminal.insert_before(height, |buffer| {
        *buffer = rows;
        Ok(())
    });
    Ok(inserted?)
}

// Inserts the rows of a text above an inline viewport, if they are settled.
fn insert_text(
    alloc: Global,
    terminal: &mut Terminal<TestBackend>,
    text: &Text<'_>,
) -> Result<(), PlayCause>
    ensures ok { OnOk result ((stage : Stage) → IsInline stage.viewport → IsGoodStage stage
        → IsPlaying stage terminal.old
        → Plays stage (Insert text.now) terminal.old terminal.new) }
    ensures err { IfErr result (λ cause. (stage : Stage) → IsInline stage.viewport
        → IsPlaying stage terminal.old
        → IsCauseOfStep stage (Insert text.now) (view_in terminal.old) cause) }
{
    let area = terminal.viewport_area();
    let (rows, settled) = text_rows(alloc, area.width, text)?;
    if !settled {
        return Err(PlayCause::Unsettled(area));
    }
    insert_rows(terminal, rows)
}

// Inserts the rows of a text above an inline viewport; on another nothing changes.
fn insert(
    alloc: Global,
    terminal: &mut Terminal<TestBackend>,
    viewport: Viewport,
    text: &Text<'_>,
) -> Result<(), PlayCause>
    ensures ok { OnOk result ((stage : Stage) → stage.viewport ≡ viewport → IsGoodStage stage
        → IsPlaying stage terminal.old
        → Plays stage (Insert text.now) terminal.old terminal.new) }
    ensures err { IfErr result (λ cause. (stage : Stage) → stage.viewport ≡ viewport
        → IsPlaying stage terminal.old
        → IsCauseOfStep stage (Insert text.now) (view_in terminal.old) cause) }
{
    match viewport {
        Viewport::Inline(_) => insert_text(alloc, terminal, text),
        _ => Ok(()),
    }
}

// Empties the viewport.
fn clear(terminal: &mut Terminal<TestBackend>) -> Result<(), PlayCause>
    ensures ok { OnOk result ((stage : Stage) → IsGoodStage stage → IsPlaying stage terminal.old
        → Plays stage Clear terminal.old terminal.new) }
    ensures err { IfErr result (λ cause. cause ≡ Memory) }
{
    Ok(terminal.clear()?)
}

/// Plays a step.
///
/// # Errors
///
/// - `Memory`: memory was refused.
/// - `Unsettled`: what is to be drawn or inserted can't be shown as it is.
pub fn play_step(
    alloc: Global,
    terminal: &mut Terminal<TestBackend>,
    viewport: Viewport,
    step: &Step<'_>,
) -> Result<(), PlayCause>
    ensures ok { OnOk result ((stage : Stage) → stage.viewport ≡ viewport → IsGoodStage stage
        → IsPlaying stage terminal.old → Plays stage step.now terminal.old terminal.new) }
    ensures err { IfErr result (λ cause. (stage : Stage) → stage.viewport ≡ viewport
        → IsPlaying stage terminal.old
        → IsCauseOfStep stage step.now (view_in terminal.old) cause) }
{
    match step {
        Step::Draw { size, text, puts } => draw(alloc, terminal, viewport, *size, text, puts),
        Step::Insert(text) => insert(alloc, terminal, viewport, text),
        Step::Clear => clear(terminal),
    }
}

/// Plays a step whose text is made now.
///
/// # Errors
///
/// Those of `play_step`.
pub fn play_plan(
    alloc: Global,
    terminal: &mut Terminal<TestBackend>,
    viewport: Viewport,
    plan: &Plan<'_>,
) -> Result<(), PlayCause>
    ensures ok { OnOk result ((stage : Stage) → stage.viewport ≡ viewport → IsGoodStage stage
        → IsPlaying stage terminal.old → Plays stage (step_of plan.now) terminal.old terminal.new) }
    ensures err { IfErr result (λ cause. (stage : Stage) → stage.viewport ≡ viewport
        → IsPlaying stage terminal.old
        → IsCauseOfStep stage (step_of plan.now) (view_in terminal.old) cause) }
{
    match plan {
        Plan::Draw { size, text, puts } => {
            let text = text.to_text(alloc)?;
            draw(alloc, terminal, viewport, *size, &text, puts)
        }
        Plan::Insert(text) => {
            let text = text.to_text(alloc)?;
            insert(alloc, terminal, viewport, &text)
        }
        Plan::Clear => clear(terminal),
    }
}

fn copied_row(alloc: Global, row: &[Cell]) -> Result<Vec<Cell>, AllocError>
    ensures { IfOk result (λ copy. copy.items ≡ row.now) }
{
    let mut copy = Vec::new(alloc);
    for cell in row {
        copy.push(cell.clone(alloc)?)?;
    }
    Ok(copy)
}

fn copied_rows(alloc: Global, rows: &[Vec<Cell>]) -> Result<Vec<Vec<Cell>>, AllocError>
    ensures { IfOk result (λ copies. map (λ row. row.items) copies.items
        ≡ map (λ row. row.items) rows.now) }
{
    let mut copies = Vec::new(alloc);
    for row in rows {
        copies.push(copied_row(alloc, row.as_slice())?)?;
    }
    Ok(copies)
}

// What a terminal's screen shows.
fn scene_of(alloc: Global, terminal: &Terminal<TestBackend>) -> Result<Scene, AllocError>
    ensures { IfOk result (IsSceneOf terminal.now) }
{
    let backend = terminal.backend();
    Ok(Scene {
        history: copied_rows(alloc, backend.scrollback())?,
        screen: backend.buffer().clone(alloc)?,
        viewport: terminal.viewport_area(),
    })
}

// Adds what the screen shows to the scenes.
fn add_scene(
    alloc: Global,
    terminal: &Terminal<TestBackend>,
    scenes: &mut Vec<Scene>,
) -> Result<(), AllocError>
    ensures ok { OnOk result ((scene : Scene) × (scenes.new.items ≡ scenes.old.items ++ scene ∷ [])
        × IsSceneOf terminal.now scene) }
    ensures err { OnErr result (scenes.new.items ≡ scenes.old.items) }
{
    scenes.push(scene_of(alloc, terminal)?)?;
    Ok(())
}

/// Plays steps on a blank stage, and answers the scene at the start, and one after each step.
///
/// # Conditions
///
/// The stage has columns and rows, and its viewport has a place on it.
///
/// # Errors
///
/// The fault names the step that wasn't done, or 0 for the start, says why, and keeps the scenes
/// before it.
pub fn play(alloc: Global, stage: Stage, steps: &[Step<'_>]) -> Result<Vec<Scene>, PlayFault>
    requires { IsGoodStage stage }
    ensures ok { IfOk result (λ scenes. IsRun stage steps.now scenes.items) }
    ensures fault { IfErr result (λ fault.
        EndsEarly stage steps.now fault.scenes.items fault.step fault.cause) }
{
    let mut scenes = Vec::new(alloc);
    let Ok(mut terminal) = open(alloc, stage) else {
        return Err(fault(0, PlayCause::Memory, scenes));
    };
    let Ok(()) = add_scene(alloc, &terminal, &mut scenes) else {
        return Err(fault(0, PlayCause::Memory, scenes));
    };
    for (index, step) in steps.iter().enumerate() {
        if let Err(cause) = play_step(alloc, &mut terminal, stage.viewport, step) {
            return Err(fault(index + 1, cause, scenes));
        }
        let Ok(()) = add_scene(alloc, &terminal, &mut scenes) else {
            return Err(fault(index + 1, PlayCause::Memory, scenes));
        };
    }
    Ok(scenes)
}

fn fault(step: usize, cause: PlayCause, scenes: Vec<Scene>) -> PlayFault
    ensures { result ≡ record { step = step; cause = cause; scenes = scenes } }
{
    PlayFault {
        step,
        cause,
        scenes,
    }
}
