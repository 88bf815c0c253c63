//! Reading a script.

ghost use Rattle.std.specs.Prelude.{◌≡◌, ◌+◌, ◌&&◌, nat_le, [], None, Some, IfOk, IfErr, IfSome, option_map};
ghost use Rattle.std.specs.Prelude.{if◌then◌else◌};
ghost use Rattle.screenplay.specs.declared.script.Command.TheVariants.{TakeSize};
ghost use Rattle.std.specs.Str.Lines.{lines};
ghost use Rattle.script_words.specs.Words.{parsed_size};
ghost use Rattle.rtui_text.specs.Text.{text_of};
ghost use Rattle.screenplay.specs.Run.{IsGoodStage};
ghost use Rattle.screenplay.specs.Script.{char_of, rect_of, screen_command, inline_of, fixed_of, put_of};
ghost use Rattle.screenplay.specs.Script.{command_with, command_of};
ghost use Rattle.screenplay.specs.Inner.{IsGoodCommand};
ghost use Rattle.screenplay.specs.Script.{IsScriptOf, IsRefusedScript};
ghost use Rattle.screenplay.specs.Inner.{nothing, draw_of, without_text, after_on, after_line};

use crate::act::{Act, Acts, Plan};
use crate::raw_lines::{LineRest, RawLines};
use crate::scene::{Puts, Stage};
use rtui_cell::CellWidth;
use rtui_geometry::{Rect, Size};
use rtui_viewport::Viewport;
use script_words::{read_number, read_size, size_by, split_word};
use std::alloc::{AllocError, Global};
use std::mem;

/// What a line of a script commands.
#[derive(Debug, Drop)]
pub enum Command<'a> {
    /// The stage.
    SetStage(Stage),
    /// The size for the next draw.
    TakeSize(Size),
    /// A put for the next draw.
    Put(u16, u16, char),
    /// A line of text for the next draw or insertion.
    AddText(LineRest<'a>),
    Draw,
    Insert,
    Clear,
    Show,
}

// The only character of a text, if it takes one column and isn't a control character.
#[tactic(auto, unfolding(crate::specs::Script::char_of))]
fn read_char(text: &str) -> Option<char>
    ensures { result ≡ char_of text.now }
{
    let ch = text.chars().next()?;
    if text.len() == ch.len_utf8() && text.cell_width() == 1 && !ch.is_control() {
        Some(ch)
    } else {
        None
    }
}

#[tactic(auto, unfolding(crate::specs::Script::rect_of))]
fn read_rect(arguments: &str) -> Option<Rect>
    ensures { result ≡ rect_of arguments.now }
{
    let (x, rest) = split_word(arguments);
    let (y, rest) = split_word(rest);
    let (width, height) = split_word(rest);
    Some(Rect {
        x: read_number(x)?,
        y: read_number(y)?,
        width: read_number(width)?,
        height: read_number(height)?,
    })
}

fn read_screen<'a>(arguments: &str) -> Option<Command<'a>>
    ensures command { result ≡ option_map screen_command (parsed_size arguments.now) }
    ensures good { IfSome result IsGoodCommand }
{
    let size = read_size(arguments)?;
    Some(Command::SetStage(Stage {
        width: size.width,
        height: size.height,
        viewport: Viewport::Fullscreen,
    }))
}

#[tactic(auto, unfolding(crate::specs::Script::inline_of))]
fn read_inline<'a>(arguments: &str) -> Option<Command<'a>>
    ensures command { result ≡ inline_of arguments.now }
    ensures good { IfSome result IsGoodCommand }
{
    let (width, rest) = split_word(arguments);
    let (height, rows) = split_word(rest);
    let size = size_by(read_number(width), read_number(height))?;
    let rows = read_number(rows)?;
    if rows == 0 {
        return None;
    }
    Some(Command::SetStage(Stage {
        width: size.width,
        height: size.height,
        viewport: Viewport::Inline(rows),
    }))
}

// Whether a rectangle ends within a size.
fn lies_within(area: Rect, size: Size) -> bool
    ensures { result ≡ (nat_le (area.x + area.width) size.width
        && nat_le (area.y + area.height) size.height) }
{
    u32::from(area.x) + u32::from(area.width) <= u32::from(size.width)
        && u32::from(area.y) + u32::from(area.height) <= u32::from(size.height)
}

#[tactic(auto, unfolding(crate::specs::Script::fixed_of))]
fn read_fixed<'a>(arguments: &str) -> Option<Command<'a>>
    ensures command { result ≡ fixed_of arguments.now }
    ensures good { IfSome result IsGoodCommand }
{
    let (width, rest) = split_word(arguments);
    let (height, area) = split_word(rest);
    let size = size_by(read_number(width), read_number(height))?;
    let area = read_rect(area)?;
    if !lies_within(area, size) {
        return None;
    }
    Some(Command::SetStage(Stage {
        width: size.width,
        height: size.height,
        viewport: Viewport::Fixed(area),
    }))
}

fn read_new_size<'a>(arguments: &str) -> Option<Command<'a>>
    ensures command { result ≡ option_map TakeSize (parsed_size arguments.now) }
    ensures good { IfSome result IsGoodCommand }
{
    Some(Command::TakeSize(read_size(arguments)?))
}

#[tactic(auto, unfolding(crate::specs::Script::put_of))]
fn read_put<'a>(arguments: &str) -> Option<Command<'a>>
    ensures command { result ≡ put_of arguments.now }
    ensures good { IfSome result IsGoodCommand }
{
    let (x, rest) = split_word(arguments);
    let (y, symbol) = split_word(rest);
    Some(Command::Put(read_number(x)?, read_number(y)?, read_char(symbol)?))
}

// The command of a line with arguments.
#[tactic(auto, unfolding(crate::specs::Script::command_with))]
fn read_arguments<'a>(word: &str, arguments: &'a str) -> Option<Command<'a>>
    ensures command { result ≡ command_with word.now arguments.now }
    ensures good { IfSome result IsGoodCommand }
{
    if word == "screen" {
        read_screen(arguments)
    } else if word == "inline" {
        read_inline(arguments)
    } else if word == "fixed" {
        read_fixed(arguments)
    } else if word == "size" {
        read_new_size(arguments)
    } else if word == "put" {
        read_put(arguments)
    } else if word == "text" {
        Some(Command::AddText(LineRest::new(arguments)))
    } else {
        None
    }
}

// The command of a line.
#[tactic(auto, unfolding(crate::specs::Script::command_of))]
fn read_command(line: &str) -> Option<Command<'_>>
    ensures command { result ≡ command_of line.now }
    ensures good { IfSome result IsGoodCommand }
{
    if line == "draw" {
        return Some(Command::Draw);
    }
    if line == "insert" {
        return Some(Command::Insert);
    }
    if line == "clear" {
        return Some(Command::Clear);
    }
    if line == "show" {
        return Some(Command::Show);
    }
    let (word, arguments) = split_word(line);
    read_arguments(word, arguments)
}

/// A script as far as it was read: its stage, what it plays, and what waits for its next draw or
/// insertion.
#[derive(Debug, Drop)]
pub struct Script<'a> {
    pub stage: Option<Stage>,
    pub acts: Acts<'a>,
    pub size: Option<Size>,
    pub text: RawLines<'a>,
    pub puts: Puts,
}

/// Why a script wasn't read.
#[derive(Debug, Clone, Copy, PartialEq, Eq)]
pub enum ScriptError {
    /// The line of this number, counted from 1, is the first bad one.
    Line(usize),
    /// Memory was refused.
    Memory,
}

impl From<AllocError> for ScriptError {
    ghost use Rattle.std.specs.Prelude.{◌≡◌};
    ghost use Rattle.screenplay.specs.declared.script.ScriptError.TheVariants.{Memory};

    ghost from_gives = { λ _ error. error ≡ Memory };

    fn from(_: AllocError) -> ScriptError {
        ScriptError::Memory
    }
}

impl<'a> Script<'a> {
    // A script of no lines; it takes no memory.
    fn new(alloc: Global) -> Script<'a>
        ensures { result ≡ nothing }
    {
        Script {
            stage: None,
            acts: Acts::new(alloc),
            size: None,
            text: RawLines::new(alloc),
            puts: Puts::new(alloc),
        }
    }

    // Takes the text that waits, after which none does.
    fn take_text(&mut self, alloc: Global) -> RawLines<'a>
        ensures text { result ≡ self.old.text }
        ensures rest { self.new ≡ without_text self.old }
    {
        mem::replace(&mut self.text, RawLines::new(alloc))
    }

    // Makes a draw of what waits, after which nothing does.
    fn take_draw(&mut self, alloc: Global) -> Plan<'a>
        ensures plan { result ≡ draw_of self.old }
        ensures rest { self.new ≡ record (without_text self.old) { size = None; puts = [] } }
    {
        Plan::Draw {
            size: self.size.take(),
            text: self.take_text(alloc),
            puts: mem::replace(&mut self.puts, Puts::new(alloc)),
        }
    }

    // Takes the command that sets the stage; it answers whether it is that one.
    fn take_first(&mut self, command: &Command<'a>) -> bool
        ensures taken { after_on None command.now self.old
            ≡ (if result then Some self.new else None) }
        ensures stage { IsGoodCommand command.now → IfSome self.old.stage IsGoodStage
            → IfSome self.new.stage IsGoodStage }
    {
        match command {
            Command::SetStage(stage) => {
                self.stage = Some(*stage);
                true
            }
            _ => false,
        }
    }

    // Takes a command on a stage; it answers whether the command may stand there.
    fn take_on(
        &mut self,
        alloc: Global,
        stage: Stage,
        command: &Command<'a>,
    ) -> Result<bool, AllocError>
        ensures taken { IfOk result (λ good. after_on (Some stage) command.now self.old
            ≡ (if good then Some self.new else None)) }
        ensures stage { self.new.stage ≡ self.old.stage }
    {
        match command {
            Command::SetStage(_) => return Ok(false),
            Command::TakeSize(size) => {
                if let Viewport::Fixed(_) = stage.viewport {
                    return Ok(false);
                }
                self.size = Some(*size);
            }
            Command::Put(x, y, ch) => self.puts.push(*x, *y, *ch)?,
            Command::AddText(line) => self.text.push(line.copied())?,
            Command::Draw => {
                let plan = self.take_draw(alloc);
                self.acts.push(Act::Play(plan))?;
            }
            Command::Insert => {
                if self.text.len() > 65535 {
                    return Ok(false);
                }
                let text = self.take_text(alloc);
                self.acts.push(Act::Play(Plan::Insert(text)))?;
            }
            Command::Clear => self.acts.push(Act::Play(Plan::Clear))?,
            Command::Show => self.acts.push(Act::Show)?,
        }
        Ok(true)
    }

    // Takes a command; it answers whether the command may stand there.
    fn take(&mut self, alloc: Global, command: &Command<'a>) -> Result<bool, AllocError>
        ensures taken { IfOk result (λ good. after_on self.old.stage command.now self.old
            ≡ (if good then Some self.new else None)) }
        ensures stage { IsGoodCommand command.now → IfSome self.old.stage IsGoodStage
            → IfOk result (λ good. IfSome self.new.stage IsGoodStage) }
    {
        match self.stage {
            None => Ok(self.take_first(command)),
            Some(stage) => self.take_on(alloc, stage, command),
        }
    }

    // Takes a line; it answers whether the line is good.
    fn take_line(&mut self, alloc: Global, line: &'a str) -> Result<bool, AllocError>
        ensures taken { IfOk result (λ good. after_line line.now self.old
            ≡ (if good then Some self.new else None)) }
        ensures stage { IfSome self.old.stage IsGoodStage
            → IfOk result (λ good. IfSome self.new.stage IsGoodStage) }
    {
        if line.is_empty() {
            return Ok(true);
        }
        match read_command(line) {
            None => Ok(false),
            Some(command) => self.take(alloc, &command),
        }
    }
}

/// Reads a script.
///
/// # Errors
///
/// - `Line`: this line is the first bad one.
/// - `Memory`: memory was refused.
pub fn read_script(alloc: Global, text: &str) -> Result<Script<'_>, ScriptError>
    ensures ok { IfOk result (IsScriptOf (lines text.now)) }
    ensures stage { IfOk result (λ script. IfSome script.stage IsGoodStage) }
    ensures err { IfErr result (IsRefusedScript (lines text.now)) }
{
    let mut script = Script::new(alloc);
    let mut number = 0usize;
    for line in text.lines() {
        number += 1;
        if !script.take_line(alloc, line)? {
            return Err(ScriptError::Line(number));
        }
    }
    Ok(script)
}
