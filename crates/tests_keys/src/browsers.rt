//! What keys that are known make of a tree of files in memory.

use crate::screens;
use files::{Browser, Hands};
use ratatui_acts::{Glass, Seat, Told, run};
use ratatui_ansi::AnsiBackend;
use ratatui_app::{OnGlass, OnScreen};
use ratatui_core::backend::TestBackend;
use ratatui_core::layout::Size;
use ratatui_core::terminal::Viewport;
use ratatui_files::{Bytes, Command, InMemory, Node, Path, Performs, Text};
use ratatui_reads::Pieces;
use ratatui_test::assert_stored;
use std::alloc::{AllocError, Global};
use std::test::Fail;
use std::time::Duration;

// The path that a text is.
fn path(alloc: Global, text: &str) -> Result<Path, AllocError> {
    match Path::new(String::from_str(alloc, text)?) {
        Some(path) => Ok(path),
        None => Err(AllocError),
    }
}

// A folder that is empty, and two files.
fn tree(alloc: Global) -> Result<InMemory, AllocError> {
    let mut tree = InMemory::new(alloc, Duration::ZERO);
    let bytes = Bytes::copy(alloc, b"tea")?;
    let _made = tree.perform(&Command::MakeFolder(path(alloc, "docs")?));
    let _written = tree.perform(&Command::Write(path(alloc, "a.txt")?, bytes));
    let bytes = Bytes::copy(alloc, b"apples")?;
    let _written = tree.perform(&Command::Write(path(alloc, "b.txt")?, bytes));
    Ok(tree)
}

// What reads make of the tree, and the screen of so many columns that shows it in the end.
#[derive(Drop)]
struct Played {
    hands: Hands<InMemory>,
    screen: OnScreen<TestBackend>,
}

// A screen in memory.
fn begun(alloc: Global, size: Size) -> Result<OnScreen<TestBackend>, AllocError> {
    let backend = TestBackend::new(alloc, size.width, size.height)?;
    match OnScreen::begin(alloc, Viewport::Fullscreen, backend) {
        Ok(screen) => Ok(screen),
        Err(_) => Err(AllocError),
    }
}

// Plays reads on the tree, and shows the last state on a screen in memory.
fn play(alloc: Global, width: u16, reads: &[&[u8]]) -> Result<Played, AllocError> {
    play_on(alloc, width, tree(alloc)?, reads)
}

// Plays reads on a tree.
fn play_on(
    alloc: Global,
    width: u16,
    tree: InMemory,
    reads: &[&[u8]],
) -> Result<Played, AllocError> {
    let size = Size { width, height: 6 };
    let Ok(backend) = AnsiBackend::new(alloc, Vec::new(alloc), size) else {
        return Err(AllocError);
    };
    let Ok(mut glass) = OnGlass::begin(alloc, Viewport::Fullscreen, backend) else {
        return Err(AllocError);
    };
    let title = Text::copy(alloc, "tree")?;
    let browser = Browser::new(alloc, title, size).with_trash(path(alloc, "trash")?);
    let mut seat = Seat::new(browser);
    let mut hands = Hands::new(alloc, tree);
    let mut source = Pieces::new(reads);
    match run(&mut source, &mut hands, true, &mut glass, &mut seat) {
        Ok(()) => {}
        Err(_) => return Err(AllocError),
    }
    let mut screen = begun(alloc, size)?;
    match screen.show(seat.state(), Told::first()) {
        Ok(()) => Ok(Played { hands, screen }),
        Err(_) => Err(AllocError),
    }
}

// Whether something stands at a path.
fn has(played: &Played, path: &str) -> bool {
    played
        .hands
        .files()
        .entries()
        .iter()
        .any(|entry| entry.path.as_str() == path)
}

#[test]
fn removes_after_a_yes(rt: HostRuntime) -> Result<(), Fail> {
    let end = play(rt.alloc(), 40, &[b"j", b"X", b"", b"y", b"q"])?;
    assert!(rt; !has(&end, "a.txt"));
    assert!(rt; has(&end, "b.txt"));
    assert_stored!(rt; end.screen.terminal().backend(), screens::REMOVED);
    Ok(())
}

#[test]
fn takes_no_yes_that_was_typed_ahead(rt: HostRuntime) -> Result<(), Fail> {
    let end = play(rt.alloc(), 40, &[b"jXy", b"y", b"", b"nq"])?;
    assert!(rt; has(&end, "a.txt"));
    Ok(())
}

#[test]
fn takes_no_yes_to_what_is_cut(rt: HostRuntime) -> Result<(), Fail> {
    let end = play(rt.alloc(), 18, &[b"jX", b"", b"y", b"q"])?;
    assert!(rt; has(&end, "a.txt"));
    assert_stored!(rt; end.screen.terminal().backend(), screens::NARROW);
    Ok(())
}

#[test]
fn renames_and_makes_folders(rt: HostRuntime) -> Result<(), Fail> {
    let end = play(
        rt.alloc(),
        60,
        &[b"jr", b"\x01n", b"", b"\r", b"anew/", b"", b"\r", b"q"],
    )?;
    assert!(rt; has(&end, "na.txt"));
    assert!(rt; !has(&end, "a.txt"));
    assert!(rt; has(&end, "new"));
    assert_stored!(rt; end.screen.terminal().backend(), screens::NAMED);
    Ok(())
}

// The bytes of the file at a path.
fn bytes_at<'a>(played: &'a Played, path: &str) -> &'a [u8] {
    for entry in played.hands.files().entries() {
        if entry.path.as_str() == path {
            if let Node::File(bytes) = &entry.node {
                return bytes.as_slice();
            }
        }
    }
    &[]
}

// Whether this is written of something in the trash.
fn is_written(alloc: Global, played: &Played, name: &str, path: &str) -> Result<bool, AllocError> {
    let at = format!(in alloc; "trash/info/{name}.trashinfo")?;
    let text = format!(in alloc; "[Trash Info]\nPath=/{path}\nDeletionDate=1970-01-01T00:00:00\n")?;
    Ok(bytes_at(played, at.as_str()) == text.as_bytes())
}

#[test]
fn moves_to_the_trash(rt: HostRuntime) -> Result<(), Fail> {
    let keys: &[&[u8]] = &[
        b"j", b"D", b"", b"y", b"aa.txt", b"", b"\r", b"D", b"", b"y", b"aa b%~", b"", b"\r", b"D",
        b"", b"y", b"q",
    ];
    let end = play(rt.alloc(), 60, keys)?;
    assert!(rt; !has(&end, "a.txt"));
    assert!(rt; bytes_at(&end, "trash/files/a.txt") == b"tea".as_slice());
    assert!(rt; has(&end, "trash/files/a.txt.2"));
    assert!(rt; is_written(rt.alloc(), &end, "a.txt", "a.txt")?);
    assert!(rt; is_written(rt.alloc(), &end, "a.txt.2", "a.txt")?);
    assert!(rt; is_written(rt.alloc(), &end, "a b%~", "a%20b%25~")?);
    Ok(())
}

// Three files with numbers in their names: the one of the largest number is the smallest.
fn numbered(alloc: Global) -> Result<InMemory, AllocError> {
    let mut tree = InMemory::new(alloc, Duration::ZERO);
    let bytes = Bytes::copy(alloc, b"1")?;
    let _written = tree.perform(&Command::Write(path(alloc, "x10")?, bytes));
    let bytes = Bytes::copy(alloc, b"333")?;
    let _written = tree.perform(&Command::Write(path(alloc, "x9")?, bytes));
    let bytes = Bytes::copy(alloc, b"22")?;
    let _written = tree.perform(&Command::Write(path(alloc, "x09")?, bytes));
    Ok(tree)
}

#[test]
fn sorts_numbers_as_numbers(rt: HostRuntime) -> Result<(), Fail> {
    let tree = numbered(rt.alloc())?;
    let end = play_on(rt.alloc(), 60, tree, &[b"GX", b"", b"y", b"q"])?;
    assert!(rt; !has(&end, "x10"));
    assert!(rt; has(&end, "x9"));
    Ok(())
}

#[test]
fn sorts_and_keeps_its_selection(rt: HostRuntime) -> Result<(), Fail> {
    let tree = numbered(rt.alloc())?;
    let end = play_on(
        rt.alloc(),
        60,
        tree,
        &[b"GsSX", b"", b"y", b"gX", b"", b"y", b"q"],
    )?;
    assert!(rt; !has(&end, "x10"));
    assert!(rt; !has(&end, "x9"));
    assert!(rt; has(&end, "x09"));
    Ok(())
}

#[test]
fn finds_names(rt: HostRuntime) -> Result<(), Fail> {
    let end = play(rt.alloc(), 60, &[b"/TXT\r", b"X", b"", b"y", b"q"])?;
    assert!(rt; has(&end, "a.txt"));
    assert!(rt; has(&end, "b.txt"));
    let end = play(rt.alloc(), 60, &[b"/txt\rn", b"nNX", b"", b"y", b"q"])?;
    assert!(rt; has(&end, "a.txt"));
    assert!(rt; !has(&end, "b.txt"));
    Ok(())
}

#[test]
fn copies_and_moves(rt: HostRuntime) -> Result<(), Fail> {
    let keys: &[&[u8]] = &[
        b"jykl", b"p", b"", b"\r", b"p", b"", b"\r", b"hGdgl", b"p", b"", b"\r", b"q",
    ];
    let end = play(rt.alloc(), 60, keys)?;
    assert!(rt; bytes_at(&end, "a.txt") == b"tea".as_slice());
    assert!(rt; bytes_at(&end, "docs/a.txt") == b"tea".as_slice());
    assert!(rt; bytes_at(&end, "docs/b.txt") == b"apples".as_slice());
    assert!(rt; !has(&end, "b.txt"));
    Ok(())
}

#[test]
fn moves_back_what_was_renamed(rt: HostRuntime) -> Result<(), Fail> {
    let keys: &[&[u8]] = &[
        b"zjr", b"\x01n", b"", b"\r", b"z", b"", b"n", b"z", b"", b"y", b"q",
    ];
    let end = play(rt.alloc(), 60, keys)?;
    assert!(rt; bytes_at(&end, "a.txt") == b"tea".as_slice());
    assert!(rt; !has(&end, "na.txt"));
    Ok(())
}

#[test]
fn goes_to_the_first_folder(rt: HostRuntime) -> Result<(), Fail> {
    let end = play(rt.alloc(), 60, &[b"l~GX", b"", b"y", b"Q"])?;
    assert!(rt; !has(&end, "b.txt"));
    Ok(())
}

#[test]
fn asks_about_each_that_is_marked(rt: HostRuntime) -> Result<(), Fail> {
    let end = play(rt.alloc(), 60, &[b"j  gX", b"", b"y", b"", b"y", b"q"])?;
    assert!(rt; !has(&end, "a.txt"));
    assert!(rt; !has(&end, "b.txt"));
    assert!(rt; has(&end, "docs"));
    Ok(())
}

#[test]
fn asks_no_more_after_a_no(rt: HostRuntime) -> Result<(), Fail> {
    let end = play(rt.alloc(), 60, &[b"j  gX", b"", b"n", b"", b"y", b"q"])?;
    assert!(rt; has(&end, "a.txt"));
    assert!(rt; has(&end, "b.txt"));
    Ok(())
}

#[test]
fn copies_all_that_is_marked(rt: HostRuntime) -> Result<(), Fail> {
    let keys: &[&[u8]] = &[b"j  ygl", b"p", b"", b"\r", b"", b"\r", b"q"];
    let end = play(rt.alloc(), 60, keys)?;
    assert!(rt; bytes_at(&end, "docs/a.txt") == b"tea".as_slice());
    assert!(rt; bytes_at(&end, "docs/b.txt") == b"apples".as_slice());
    assert!(rt; has(&end, "a.txt"));
    Ok(())
}

#[test]
fn does_nothing_while_the_keys_are_shown(rt: HostRuntime) -> Result<(), Fail> {
    let keys: &[&[u8]] = &[b"j?", b"X", b"", b"y", b"", b"DyX", b"", b"yq", b"q"];
    let end = play(rt.alloc(), 40, keys)?;
    assert!(rt; has(&end, "a.txt"));
    Ok(())
}

#[test]
fn clicks_and_turns_of_the_wheel_select(rt: HostRuntime) -> Result<(), Fail> {
    let keys: &[&[u8]] = &[
        b"\x1b[<65;1;1M\x1b[<0;5;3MX",
        b"",
        b"y",
        b"\x1b[<0;5;2M",
        b"q",
    ];
    let end = play(rt.alloc(), 40, keys)?;
    assert!(rt; !has(&end, "a.txt"));
    assert!(rt; has(&end, "b.txt"));
    assert_stored!(rt; end.screen.terminal().backend(), screens::CLICKED);
    Ok(())
}

#[test]
fn shows_what_is_selected(rt: HostRuntime) -> Result<(), Fail> {
    let end = play(rt.alloc(), 72, &[b"j", b"", b"q"])?;
    assert_stored!(rt; end.screen.terminal().backend(), screens::AHEAD);
    let end = play(rt.alloc(), 72, &[b"l", b"", b"q"])?;
    assert_stored!(rt; end.screen.terminal().backend(), screens::ABOVE);
    Ok(())
}

#[test]
fn goes_to_typed_paths(rt: HostRuntime) -> Result<(), Fail> {
    let keys: &[&[u8]] = &[
        b":docs\raone",
        b"",
        b"\r",
        b":../docs/./\ratwo",
        b"",
        b"\r",
        b":..\rathree",
        b"",
        b"\r",
        b"l:~\rafour",
        b"",
        b"\r",
        b"q",
    ];
    let end = play(rt.alloc(), 60, keys)?;
    assert!(rt; has(&end, "docs/one"));
    assert!(rt; has(&end, "docs/two"));
    assert!(rt; has(&end, "three"));
    assert!(rt; has(&end, "four"));
    Ok(())
}

#[test]
fn completes_typed_paths(rt: HostRuntime) -> Result<(), Fail> {
    let end = play(rt.alloc(), 60, &[b":d\tone/..\rax", b"", b"\r", b"q"])?;
    assert!(rt; has(&end, "docs/x"));
    let tree = numbered(rt.alloc())?;
    let end = play_on(rt.alloc(), 60, tree, &[b":x\t0\t\rX", b"", b"y", b"q"])?;
    assert!(rt; !has(&end, "x09"));
    assert!(rt; has(&end, "x9"));
    Ok(())
}

#[test]
fn stays_where_a_typed_path_leads_to_nothing(rt: HostRuntime) -> Result<(), Fail> {
    let end = play(rt.alloc(), 60, &[b"l:../../docs\rax", b"", b"\r", b"q"])?;
    assert!(rt; has(&end, "docs/x"));
    let end = play(
        rt.alloc(),
        60,
        &[b":no\t\x1b", b"", b":no\rax", b"", b"\r", b"q"],
    )?;
    assert!(rt; has(&end, "x"));
    let end = play(rt.alloc(), 60, &[b":../docs\rax", b"", b"\r", b"q"])?;
    assert!(rt; has(&end, "x"));
    assert!(rt; !has(&end, "docs/x"));
    Ok(())
}

// The same tree, with two files in its folder.
fn filled(alloc: Global) -> Result<InMemory, AllocError> {
    let mut tree = tree(alloc)?;
    let _made = tree.perform(&Command::MakeFile(path(alloc, "docs/one")?));
    let _made = tree.perform(&Command::MakeFile(path(alloc, "docs/.two")?));
    Ok(tree)
}

// Whether a file without bytes stands at a path.
fn has_empty_file(played: &Played, path: &str) -> bool {
    for entry in played.hands.files().entries() {
        if entry.path.as_str() == path {
            return match &entry.node {
                Node::File(bytes) => bytes.as_slice().is_empty(),
                Node::Folder => false,
            };
        }
    }
    false
}

#[test]
fn makes_files_and_folders(rt: HostRuntime) -> Result<(), Fail> {
    let keys: &[&[u8]] = &[
        b"aone", b"", b"\r", b"atwo/", b"", b"\r", b"a/", b"", b"\r", b"X", b"", b"y", b"q",
    ];
    let end = play(rt.alloc(), 60, keys)?;
    assert!(rt; has_empty_file(&end, "one"));
    assert!(rt; has(&end, "a.txt"));
    assert!(rt; !has(&end, "two"));
    let end = play(
        rt.alloc(),
        60,
        &[b"atwo/", b"", b"\r", b"laone", b"", b"\r", b"q"],
    )?;
    assert!(rt; has_empty_file(&end, "two/one"));
    Ok(())
}

#[test]
fn counts_a_folder_before_it_asks(rt: HostRuntime) -> Result<(), Fail> {
    let end = play_on(
        rt.alloc(),
        72,
        filled(rt.alloc())?,
        &[b"D", b"", b"n", b"q"],
    )?;
    assert!(rt; has(&end, "docs/one"));
    let end = play_on(
        rt.alloc(),
        72,
        filled(rt.alloc())?,
        &[b"D", b"", b"y", b"q"],
    )?;
    assert!(rt; has(&end, "trash/files/docs/one"));
    assert!(rt; !has(&end, "docs"));
    Ok(())
}

#[test]
fn takes_no_yes_to_a_count_that_is_cut(rt: HostRuntime) -> Result<(), Fail> {
    let end = play_on(
        rt.alloc(),
        43,
        filled(rt.alloc())?,
        &[b"D", b"", b"y", b"q"],
    )?;
    assert!(rt; has(&end, "docs/one"));
    let end = play_on(
        rt.alloc(),
        44,
        filled(rt.alloc())?,
        &[b"D", b"", b"y", b"q"],
    )?;
    assert!(rt; !has(&end, "docs"));
    Ok(())
}

#[test]
fn removes_no_folder_that_has_entries(rt: HostRuntime) -> Result<(), Fail> {
    let end = play_on(
        rt.alloc(),
        60,
        filled(rt.alloc())?,
        &[b"X", b"", b"y", b"q"],
    )?;
    assert!(rt; has(&end, "docs/one"));
    let end = play(rt.alloc(), 60, &[b"X", b"", b"y", b"q"])?;
    assert!(rt; !has(&end, "docs"));
    Ok(())
}

#[test]
fn shows_dates_if_there_is_room(rt: HostRuntime) -> Result<(), Fail> {
    let end = play(rt.alloc(), 48, &[b"j", b"q"])?;
    assert_stored!(rt; end.screen.terminal().backend(), screens::DATED);
    Ok(())
}
