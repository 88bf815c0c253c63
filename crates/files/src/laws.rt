//! Laws of browsers.

ghost use Rattle.std.specs.Prelude.{◌≡◌, ◌≢◌, ◌⊎◌, ◌+◌, ◌<◌, ◌≤◌, ℕ, true, false, not, Some, None, List, length, filter, codes};
ghost use Rattle.std.specs.Prelude.{IsSorted, slice_get, slice_index_or, is_some, option_to_list, if◌then◌else◌, [], ◌∷◌, ◌++◌};
ghost use Rattle.std.specs.Ordering.{is_lt};
ghost use Rattle.files.specs.declared.list.Row.{Row};
ghost use Rattle.files.specs.declared.order.Order.{Order};
ghost use Rattle.files.specs.Orders.{compare_rows};
ghost use Rattle.files.specs.Finding.{next_named, previous_named, NoneBetween, IsNextNamed, IsPreviousNamed};
ghost use Rattle.files.specs.declared.hands.Wanted.{Wanted};
ghost use Rattle.files.specs.Doing.{Lists, TellsListing, DoesAsked};
ghost use Rattle.files.specs.Counting.{count_told, entries_told};
ghost use Rattle.files.specs.Sorting.{HasName, IsPlaceOf};
ghost use Rattle.files.specs.Keys.{is_input, event_order, event_wish};
ghost use Rattle.ratatui_events.specs.declared.event.Event.TheVariants.{Key};
ghost use Rattle.ratatui_events.specs.declared.key.KeyEvent.{KeyEvent};
ghost use Rattle.files.specs.declared.keys.Wish.TheVariants.{Nothing};
ghost use Rattle.files.specs.declared.undo.Moved.{Moved};
ghost use Rattle.files.specs.declared.marks.Mark.{Mark};
ghost use Rattle.files.specs.declared.notes.Noted.{Noted};
ghost use Rattle.files.specs.declared.keys.Wish.TheVariants as wish;
ghost use Rattle.files.specs.Marks.{marks_but, is_selected_marked, AreMarksListed};
ghost use Rattle.files.specs.Moves.{wished, typing_name};
ghost use Rattle.files.specs.declared.browser.Mode.TheVariants.{Helping, Undoing};
ghost use Rattle.std.specs.List.{range_with_len};
ghost use Rattle.percent_encoding.specs.AsciiSet.{should_percent_encode};
ghost use Rattle.files.specs.declared.trash.TheConstants.{KEPT};
ghost use Rattle.std.specs.Str.{IsUtf8};
ghost use Rattle.std.specs.declared.alloc.Global.{Global as GlobalData};
ghost use Rattle.std.specs.declared.time.Duration.{Duration};
ghost use Rattle.ratatui_core.specs.Layout.{Size as SizeData};
ghost use Rattle.ratatui_events.specs.declared.event.Event.{Event};
ghost use Rattle.ratatui_acts.specs.declared.message.Message.TheVariants as message;
ghost use Rattle.ratatui_acts.specs.declared.message.Message.{Message};
ghost use Rattle.ratatui_files.specs.declared.answer.Failure.{Failure};
ghost use Rattle.ratatui_files.specs.declared.command.Command.TheVariants.{Rename, Copy, Remove};
ghost use Rattle.ratatui_files.specs.declared.command.Command.TheVariants.{RemoveFolder, MakeFile};
ghost use Rattle.ratatui_files.specs.declared.command.Command.TheVariants.{MakeFolder};
ghost use Rattle.files.specs.declared.browser.Browser.{Browser};
ghost use Rattle.files.specs.declared.browser.Mode.TheVariants.{Listing, Sorting, Trashing, Removing, Making};
ghost use Rattle.files.specs.declared.browser.Mode.TheVariants.{Pasting};
ghost use Rattle.files.specs.declared.trash.Discard.{Discard};
ghost use Rattle.files.specs.declared.list.Listing.{Listing as ListingData};
ghost use Rattle.files.specs.declared.list.Outcome.{Outcome};
ghost use Rattle.files.specs.declared.list.Outcome.TheVariants as outcome;
ghost use Rattle.files.specs.Names.{shown_name};
ghost use Rattle.files.specs.Texts.{selected_text, fits, status_told};
ghost use Rattle.files.specs.Trash.{discard_in};
ghost use Rattle.files.specs.Moves.{new_browser, browsed_after, list_rows, scrolled_list, acts, asks, is_completing};
ghost use Rattle.files.specs.Questions.{change_in};
ghost use Rattle.ratatui_acts.specs.Runs.{Now, Past, HasRun};
ghost use Rattle.ratatui_app.specs.declared.on_glass.OnGlass.{OnGlass};
ghost use Rattle.files.specs.RunLaws.{browsing_on, WereOnTheGlass, WereAsked};
ghost use Rattle.files.specs.RunLaws.{MadeByTurns, tree_after_all};
ghost use Rattle.files.specs.declared.hands.Hands.{Hands as HandsData};
ghost use Rattle.ratatui_files.specs.declared.command.Command.{Command};
ghost use Rattle.ratatui_files.specs.Trees.{Tree};
ghost use Rattle.files.specs.Laws.{IsSound, IsPlaced, ListsSame, AsksToRemove, AsksToRename, AsksToMake};
ghost use Rattle.files.specs.Laws.{AsksToTrash, AsksToPaste, AsksToUndo};
ghost use Rattle.files.specs.Laws.{AsksAbout, WillAskAbout, IsLook, seen_last, IsWithin, LeadsToEntry};
ghost use Rattle.files.specs.Laws.{AsksOfFolder, AskedBefore, JustCounted, WasListed, is_counting};
ghost use Rattle.files.specs.declared.browser.Mode.TheVariants.{Looking};
ghost use Rattle.files.specs.declared.glance.Side.{Side as SideName};
ghost use Rattle.files.specs.declared.glance.Glance.{Glance as GlanceData};
ghost use Rattle.files.specs.declared.looks.Aim.{Aim};
ghost use Rattle.files.specs.Glances.{is_seen_at, seen_above, seen_ahead, aged};
ghost use Rattle.files.specs.Looks.{IsAim};
ghost use Rattle.std.specs.Prelude.{Bool, take, encode_utf8_all};
ghost use Rattle.text_field.specs.Field.{field_text};
ghost use Rattle.ratatui_files.specs.declared.answer.Answer.{Answer as AnswerData};
ghost use Rattle.ratatui_files.specs.declared.answer.Info.{Info};
ghost use Rattle.files.specs.declared.browser.Mode.TheVariants.{Visiting, Locating, Completing};
ghost use Rattle.files.specs.Ways.{way_of};
ghost use Rattle.files.specs.Completions.{entry_rest, completion};
ghost use Rattle.files.specs.HelpTable.{key_table, AreListedKeys, HasEntryFor};

use crate::browser::Browser;
use crate::hands::Hands;
use ratatui_acts::{Hears, Outside};
use ratatui_app::OnGlass;
use ratatui_files::{InMemory, Performs};
use std::io::Write;

/// Names that are shown alike are the same.
pub fn names_are_told_apart()
    ensures { (one other : List ℕ) → IsUtf8 one → IsUtf8 other
        → shown_name one ≡ shown_name other → one ≡ other }
{}

/// The selection is always an entry of the list, unless that is empty, and stands in one of its
/// rows; these move only if it wouldn't, or if blank rows would stand below the last entry.
pub fn the_selection_is_in_its_rows()
    ensures first { (alloc : GlobalData) (title : List ℕ) (size : SizeData)
        → IsPlaced (new_browser alloc title size) }
    ensures next { (b : Browser) (m : Message Outcome) → IsPlaced b → IsPlaced (browsed_after b m) }
    ensures little { (b : Browser) → b.top ≤ b.selected → b.selected < b.top + list_rows b
        → b.top + list_rows b ≤ length b.list → scrolled_list b ≡ b }
{}

/// What is listed is what was answered last of a folder; nothing else changes it.
pub fn only_listings_change_the_list()
    ensures listed { (b : Browser) (l : ListingData)
        → let c = browsed_after b (message.Answer (outcome.Listed l)) in
        (c.folder ≡ l.folder) × (c.list ≡ l.rows) × (c.unnamed ≡ l.unnamed) }
    ensures event { (b : Browser) (e : Event) → ListsSame b (browsed_after b (message.Event e)) }
    ensures tick { (b : Browser) (passed : Duration)
        → ListsSame b (browsed_after b (message.Tick passed)) }
    ensures done { (b : Browser) → ListsSame b (browsed_after b (message.Answer outcome.Done)) }
    ensures completed { (b : Browser) (rest : List ℕ)
        → ListsSame b (browsed_after b (message.Answer (outcome.Completed rest))) }
    ensures failed { (b : Browser) (why : Failure)
        → ListsSame b (browsed_after b (message.Answer (outcome.Failed why))) }
    ensures seen { (b : Browser) (g : GlanceData)
        → ListsSame b (browsed_after b (message.Answer (outcome.Glanced g))) }
{}

/// A question that removes or renames something names it, whole, and the name that it is given, or
/// the trash; one that copies or moves something names where it is, whole, and the name that it gets
/// in the folder that is shown; one that moves something back names both places, whole; one that
/// makes a file or a folder says which, and names it. None whether something is to be put into the
/// trash can be taken for one whether it is to be removed for good.
pub fn questions_name_what_they_change()
    ensures file { (b : Browser) (path : List ℕ) → change_in b.mode b ≡ Some (Remove path)
        → AsksToRemove b path }
    ensures folder { (b : Browser) (path : List ℕ) → change_in b.mode b ≡ Some (RemoveFolder path)
        → AsksToRemove b path }
    ensures renamed { (b : Browser) (from to : List ℕ)
        → change_in b.mode b ≡ Some (Rename from to)
        → AsksToRename b from to ⊎ AsksToPaste (codes "move") b from to ⊎ AsksToUndo b from to }
    ensures copied { (b : Browser) (from to : List ℕ) → change_in b.mode b ≡ Some (Copy from to)
        → AsksToPaste (codes "copy") b from to }
    ensures trashed { (b : Browser) (d : Discard) → b.mode ≡ Trashing → discard_in b ≡ Some d
        → AsksToTrash b d }
    ensures file_made { (b : Browser) (path : List ℕ) → b.mode ≡ Making
        → change_in Making b ≡ Some (MakeFile path) → AsksToMake (codes "make the file \"") b path }
    ensures folder_made { (b : Browser) (path : List ℕ) → b.mode ≡ Making
        → change_in Making b ≡ Some (MakeFolder path)
        → AsksToMake (codes "make the folder \"") b path }
    ensures verbs { (b c : Browser) → b.mode ≡ Trashing → c.mode ≡ Removing
        → status_told b ≢ status_told c }
{}

/// A yes counts only if the last read found nothing while the question stood there, and if the
/// screen has columns for all of it; and nothing else makes a question sure.
pub fn a_yes_counts_after_a_pause()
    ensures counts { (b : Browser) (e : Event) → b.is_sure ≡ false
        → (browsed_after b (message.Event e)).is_sure ≡ true
        → (b.is_quiet ≡ true) × (fits b.size.width b ≡ true)
        × (browsed_after b (message.Event e) ≡ record b { is_sure = true; is_quiet = false }) }
    ensures asked { (b : Browser) (e : Event)
        → (browsed_after b (message.Event e)).is_quiet ≡ true
        → (b.is_quiet ≡ true) × ((browsed_after b (message.Event e)).size ≡ b.size)
        × ((browsed_after b (message.Event e)).is_sure ≡ b.is_sure) }
    ensures answered { (b : Browser) (o : Outcome)
        → ((browsed_after b (message.Answer o)).is_quiet ≡ false)
        × ((browsed_after b (message.Answer o)).is_sure ≡ false) }
{}

/// The characters that stand as themselves in a path that is written of something in the trash. Of
/// each other byte the number is written.
pub fn paths_are_written_in_these_characters()
    ensures { filter (λ b. not (should_percent_encode KEPT b)) (range_with_len 0 128)
        ≡ codes "-./0123456789ABCDEFGHIJKLMNOPQRSTUVWXYZ_abcdefghijklmnopqrstuvwxyz~" }
{}

/// No row whose name has what is sought is passed over.
pub fn no_name_is_passed_over()
    ensures next { (text : List ℕ) (rows : List Row) (place found : ℕ)
        → next_named text rows place ≡ Some found → IsNextNamed text rows place found }
    ensures previous { (text : List ℕ) (rows : List Row) (place found : ℕ)
        → previous_named text rows place ≡ Some found → IsPreviousNamed text rows place found }
    ensures none { (text : List ℕ) (rows : List Row) (place : ℕ) → next_named text rows place ≡ None
        → NoneBetween text rows 0 (length rows) }
    ensures none_before { (text : List ℕ) (rows : List Row) (place : ℕ)
        → previous_named text rows place ≡ None → NoneBetween text rows 0 (length rows) }
{}

/// In a list that is in order no row stands after one that it comes before; and folders stand first,
/// whatever the order.
pub fn rows_stand_in_order()
    ensures order { (order : Order) (rows : List Row) (i j : ℕ) (other : Row)
        → IsSorted (compare_rows order) rows → i ≤ j → j < length rows
        → is_lt (compare_rows order (slice_index_or rows j other) (slice_index_or rows i other))
        ≡ false }
    ensures folders { (order : Order) (rows : List Row) (i j : ℕ) (other : Row)
        → IsSorted (compare_rows order) rows → i ≤ j → j < length rows
        → (slice_index_or rows i other).is_leaf ≡ true
        → (slice_index_or rows j other).is_leaf ≡ true }
{}

/// The selection stays on its entry if the folder is listed anew, in whatever order: it is told of
/// the row with the name that was asked for, if there is one.
pub fn the_selection_stays_on_its_entry()
    ensures asked { (b : Browser) (w : Wanted) → b.seeks_typed ≡ false → Lists Listing b w
        → w.name ≡ selected_text b }
    ensures stays { (b : Browser) (l : ListingData) (name : List ℕ) (other k : ℕ)
        → IsPlaceOf name other l.rows l.place → HasName name (slice_get l.rows k)
        → selected_text (browsed_after b (message.Answer (outcome.Listed l))) ≡ name }
    ensures sorted { (b : Browser) (e : Event) (o : Order) → b.mode ≡ Sorting → is_input e ≡ true
        → event_order e ≡ Some o → browsed_after b (message.Event e)
        ≡ record b { order = o; mode = Listing; is_quiet = false } }
{}

/// The list of the keys is right: where it names a key, that key asks for what the table of the list
/// says, and the row has the words for it. And it is whole: each key that asks for something stands
/// in the table.
pub fn the_help_names_the_keys()
    ensures right { AreListedKeys key_table }
    ensures whole { (k : KeyEvent) → event_wish (Key k) ≢ Nothing → HasEntryFor k key_table }
{}

/// While the list of the keys is shown, no event makes a question sure or asks for anything.
pub fn nothing_is_asked_while_the_keys_are_shown()
    ensures { (b : Browser) (e : Event) → b.mode ≡ Helping
        → asks (browsed_after b (message.Event e)) ≡ false }
{}

/// A mark is always of an entry that is listed.
pub fn marks_are_of_entries_that_are_listed()
    ensures first { (alloc : GlobalData) (title : List ℕ) (size : SizeData)
        → AreMarksListed (new_browser alloc title size) }
    ensures next { (b : Browser) (m : Message Outcome)
        → AreMarksListed b → AreMarksListed (browsed_after b m) }
{}

/// If entries are marked, it is asked about the one that was marked first, whatever is selected. Once
/// that is removed, the folder is listed anew, and it is asked about the one that was marked next. By
/// itself, after a listing, no question comes whether an entry is to be removed that isn't marked.
pub fn marks_are_asked_about_in_turn()
    ensures removed { (b : Browser) (mark : Mark) → AreMarksListed b
        → slice_get b.marks 0 ≡ Some mark → AsksAbout Removing mark.name (wished wish.Remove b) }
    ensures trashed { (b : Browser) (mark : Mark) → AreMarksListed b
        → slice_get b.marks 0 ≡ Some mark → is_some b.trash ≡ true
        → AsksAbout Trashing mark.name (wished wish.Trash b) }
    ensures next { (b : Browser) (mark : Mark) → AreMarksListed b
        → (b.mode ≡ Removing) ⊎ (b.mode ≡ Trashing)
        → slice_get (marks_but (selected_text b) b.marks) 0 ≡ Some mark
        → WillAskAbout b.mode mark.name (browsed_after b (message.Answer outcome.Done)) }
    ensures marked { (b : Browser) (l : ListingData)
        → let c = browsed_after b (message.Answer (outcome.Listed l)) in
        (c.mode ≡ Removing) ⊎ (c.mode ≡ Trashing) → is_selected_marked c ≡ true }
{}

/// If several entries are noted, the next one is asked about once one is pasted, under its own name;
/// and what was copied stays noted, after the others.
pub fn what_is_noted_comes_in_turn()
    ensures next { (b : Browser) (noted : Noted) → b.mode ≡ Pasting → 0 < b.left
        → slice_get b.more 0 ≡ Some noted
        → let c = browsed_after b (message.Answer outcome.Done) in
        (c.noted ≡ Some noted) × (c.follows ≡ Pasting) × (c.mode ≡ Listing) }
    ensures asked { (b : Browser) (l : ListingData) (noted : Noted) → b.noted ≡ Some noted
        → b.follows ≡ Pasting
        → let c = browsed_after b (message.Answer (outcome.Listed l)) in
        (c.mode ≡ Pasting) × (c.typed ≡ typing_name noted.name) × (c.noted ≡ Some noted) }
    ensures kept { (b : Browser) (noted : Noted) → b.mode ≡ Pasting → b.noted ≡ Some noted
        → let c = browsed_after b (message.Answer outcome.Done) in
        option_to_list c.noted ++ c.more
        ≡ b.more ++ (if noted.is_moved then [] else noted ∷ []) }
{}

/// What was renamed or moved is what is moved back if that is asked for: the other way round.
pub fn what_was_moved_is_moved_back()
    ensures noted { (b : Browser) (from to : List ℕ) → change_in b.mode b ≡ Some (Rename from to)
        → (browsed_after b (message.Answer outcome.Done)).last_move
        ≡ Some (record { from = from; to = to }) }
    ensures back { (b : Browser) (moved : Moved) → b.last_move ≡ Some moved
        → change_in Undoing b ≡ Some (Rename moved.to moved.from) }
{}

/// What is seen ahead is from the folder that is shown, and of the entry that is selected; what is
/// seen above is from that folder, too.
pub fn what_is_seen_is_of_what_is_selected()
    ensures ahead { (b : Browser) (g : GlanceData) → seen_ahead b ≡ Some g
        → (g.folder ≡ b.folder) × (g.name ≡ selected_text b) }
    ensures above { (b : Browser) (g : GlanceData) → seen_above b ≡ Some g → g.folder ≡ b.folder }
{}

/// What is seen is what was answered last. An answer that isn't of the folder that is shown, or is of
/// another entry than the selected one, is dropped; and nothing but an answer changes what was seen:
/// once the folder is listed anew, it is looked at anew.
pub fn what_is_seen_was_answered_last()
    ensures taken { (b : Browser) (g : GlanceData) → is_seen_at g.side b g ≡ true
        → seen_last g.side (browsed_after b (message.Answer (outcome.Glanced g))) ≡ Some g }
    ensures dropped { (b : Browser) (g : GlanceData) → is_seen_at g.side b g ≡ false
        → (browsed_after b (message.Answer (outcome.Glanced g))).glances ≡ b.glances }
    ensures event { (b : Browser) (e : Event)
        → (browsed_after b (message.Event e)).glances ≡ b.glances }
    ensures tick { (b : Browser) (passed : Duration)
        → (browsed_after b (message.Tick passed)).glances ≡ b.glances }
    ensures done { (b : Browser)
        → (browsed_after b (message.Answer outcome.Done)).glances ≡ b.glances }
    ensures completed { (b : Browser) (rest : List ℕ)
        → (browsed_after b (message.Answer (outcome.Completed rest))).glances ≡ b.glances }
    ensures failed { (b : Browser) (why : Failure)
        → (browsed_after b (message.Answer (outcome.Failed why))).glances ≡ b.glances }
    ensures listed { (b : Browser) (l : ListingData)
        → (browsed_after b (message.Answer (outcome.Listed l))).glances ≡ aged b.glances }
{}

/// What is to be seen is asked for by itself only while an entry is selected, after a read that found
/// nothing, and on a screen with room for it; and only by commands that change nothing.
pub fn looks_delay_no_key_and_change_nothing()
    ensures quiet { (b : Browser) → asks b ≡ true → acts b ≡ false
        → (b.mode ≡ Looking) × (b.is_quiet ≡ true) × (60 ≤ b.size.width) }
    ensures light { (b : Browser) (side : SideName) (aim : Aim) → IsAim side b aim
        → IsLook aim.command }
{}

/// A typed path leads to the folder above which nothing is reached, or into it. What is shown once
/// it is taken is the folder to which it leads, or the one that has what it leads to, selected if
/// it is listed; if neither can be listed, the folder stays that is shown, since nothing but a
/// listing changes that.
pub fn typed_paths_lead_where_they_say()
    ensures within { (b : Browser) (text path : List ℕ) → way_of b text ≡ Some path
        → IsWithin b.base path }
    ensures folder { (b : Browser) (w : Wanted) (a : AnswerData) (l : ListingData)
        → Lists Visiting b w → TellsListing b.order b.has_hidden w a (outcome.Listed l)
        → way_of b (field_text b.typed)
        ≡ Some (browsed_after b (message.Answer (outcome.Listed l))).folder }
    ensures entry { (b : Browser) (w : Wanted) (a : AnswerData) (l : ListingData)
        → Lists Locating b w → TellsListing b.order b.has_hidden w a (outcome.Listed l)
        → LeadsToEntry b l (browsed_after b (message.Answer (outcome.Listed l))) }
{}

/// What a path is completed to goes on with what was typed; and what is added begins what is left
/// of each entry whose name has the beginning that was typed. Until it is known, nothing else is
/// typed, and an answer to what isn't asked any longer is dropped.
pub fn completions_go_on_with_what_is_typed()
    ensures typed { (b : Browser) (rest : List ℕ) → b.mode ≡ Completing → (more : List ℕ)
        × (field_text (browsed_after b (message.Answer (outcome.Completed rest))).typed
        ≡ field_text b.typed ++ more) }
    ensures each { (hidden : Bool) (start : List ℕ) (entries : List Info) (info : Info)
        (rest : List ℕ) (k : ℕ) → slice_get entries k ≡ Some info
        → entry_rest hidden start info ≡ Some rest
        → (n : ℕ) × (completion hidden start entries ≡ encode_utf8_all (take n rest)) }
    ensures waits { (b : Browser) (e : Event) → b.mode ≡ Completing
        → (browsed_after b (message.Event e)).typed ≡ b.typed }
    ensures dropped { (b : Browser) (rest : List ℕ) → is_completing b.mode ≡ false
        → (browsed_after b (message.Answer (outcome.Completed rest))).typed ≡ b.typed }
{}

/// A question whether a folder is to be removed, or put into the trash, stands only after just this
/// folder was listed: where it didn't stand before, what was answered last is how many entries that
/// is told to have, and the question tells this number. By itself, after a listing, no folder is
/// counted that isn't marked. Counting changes nothing that is shown of the folder.
pub fn folders_are_counted_before_they_are_asked_about<P: Performs + Drop>()
    ensures asked { (b : Browser) (m : Message Outcome) → AsksOfFolder (browsed_after b m)
        → AskedBefore b (browsed_after b m) ⊎ JustCounted b m (browsed_after b m) }
    ensures listed { (b : Browser) (files after : P) (n : ℕ) → is_counting b.mode ≡ true
        → DoesAsked P.does b files (outcome.Counted n) after → WasListed P.does b files n after }
    ensures told { (b : Browser) → AsksOfFolder b → count_told b ≡ entries_told b.count }
    ensures marked { (b : Browser) (l : ListingData)
        → let c = browsed_after b (message.Answer (outcome.Listed l)) in
        is_counting c.mode ≡ true → is_selected_marked c ≡ true }
    ensures kept { (b : Browser) (n : ℕ)
        → ListsSame b (browsed_after b (message.Answer (outcome.Counted n))) }
    ensures seen { (b : Browser) (n : ℕ)
        → (browsed_after b (message.Answer (outcome.Counted n))).glances ≡ b.glances }
{}

// ---- runs

/// Whatever a run did to files, it did while each terminal that had read what was sent until then
/// showed the browser that asked for it; and where that changes something, the screen has columns
/// for the whole question. A browser begins sound.
pub fn things_are_changed_while_they_are_named<
    W: Write + Drop,
    H: Hears<Browser, OnGlass<W>>,
    O: Outside<Browser, OnGlass<W>>,
>()
    ensures first { (alloc : GlobalData) (title : List ℕ) (size : SizeData)
        → IsSound (new_browser alloc title size) }
    ensures named { (begun now : Now Browser (OnGlass W) H O)
        (past : List (Past Browser Browser Outcome (OnGlass W) H O)) → IsSound begun.standing.state
        → HasRun (browsing_on H.gives H.fails O.answers) begun past now → WereOnTheGlass past }
{}

/// Whatever a run changed, its question was answered by a key that was read after the question was
/// on the glass: before, a read had found nothing while each terminal that had read what was sent
/// until then showed that question, unanswered.
pub fn questions_are_answered_after_they_are_shown<
    W: Write + Drop,
    H: Hears<Browser, OnGlass<W>>,
    O: Outside<Browser, OnGlass<W>>,
>()
    ensures { (begun now : Now Browser (OnGlass W) H O)
        (past : List (Past Browser Browser Outcome (OnGlass W) H O))
        → begun.standing.state.is_sure ≡ false → begun.standing.state.is_quiet ≡ false
        → HasRun (browsing_on H.gives H.fails O.answers) begun past now → WereAsked past }
{}

/// What a run makes of files in memory is what the confirmed commands make of them, one after the
/// other, and nothing else. Each was named by the question of its turn, and that was answered by
/// yes. What is told to be done was done, and what is told to have failed wasn't. What lists, looks,
/// completes or reads does nothing to them.
pub fn a_run_makes_of_files_what_was_confirmed<W: Write + Drop, H: Hears<Browser, OnGlass<W>>>()
    ensures { (begun now : Now Browser (OnGlass W) H (HandsData Tree))
        (past : List (Past Browser Browser Outcome (OnGlass W) H (HandsData Tree)))
        → let answers = ⟦<Hands<InMemory> as Outside<Browser, OnGlass<W>>>⟧.answers in
        HasRun (browsing_on H.gives H.fails answers) begun past now
        → (commands : List Command) × MadeByTurns past commands
        × (now.outside.files ≡ tree_after_all commands begun.outside.files) }
{}
