//! Laws of trees of files and of what commands make of them. What stands at a path of a tree in
//! memory after a command is what the tree after it has there.

ghost use Rattle.std.specs.Prelude.{◌≡◌, List, [], ℕ, None, Some, take};
ghost use Rattle.ratatui_files.specs.declared.answer.Answer.TheVariants as answer;
ghost use Rattle.ratatui_files.specs.declared.answer.Failure.{Failure};
ghost use Rattle.ratatui_files.specs.declared.command.Command.{Command};
ghost use Rattle.ratatui_files.specs.declared.command.Command.TheVariants as command;
ghost use Rattle.ratatui_files.specs.Trees.{Tree, node_at};
ghost use Rattle.ratatui_files.specs.Changes.{answer_to, tree_after};
ghost use Rattle.ratatui_files.specs.Kept.{NamesOther};

/// A command that failed has changed nothing.
pub fn what_failed_changed_nothing()
    ensures { (c : Command) (t : Tree) (failure : Failure)
        → answer_to c t ≡ answer.Failed failure → tree_after c t ≡ t }
{}

/// A file that was written is read as it was written.
pub fn what_was_written_is_read()
    ensures { (path bytes : List ℕ) (most : ℕ) (t : Tree)
        → answer_to (command.Write path bytes) t ≡ answer.Done
        → answer_to (command.Read path 0 most) (tree_after (command.Write path bytes) t)
        ≡ answer.Read (take most bytes) }
{}

/// A file that was made is read as empty.
pub fn what_was_made_is_empty()
    ensures { (path : List ℕ) (start most : ℕ) (t : Tree)
        → answer_to (command.MakeFile path) t ≡ answer.Done
        → answer_to (command.Read path start most) (tree_after (command.MakeFile path) t)
        ≡ answer.Read [] }
{}

/// What was removed is gone.
pub fn what_was_removed_is_gone()
    ensures { (path : List ℕ) (t : Tree)
        → answer_to (command.Remove path) t ≡ answer.Done
        → node_at path (tree_after (command.Remove path) t).entries ≡ None }
{}

/// What a command doesn't name stays: what stands at each other path is what stood there.
pub fn what_is_not_named_stays()
    ensures { (path : List ℕ) (c : Command) (t : Tree) → NamesOther path c
        → node_at path (tree_after c t).entries ≡ node_at path t.entries }
{}
