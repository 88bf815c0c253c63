//! Which nodes are opened.

ghost use Rattle.std.specs.Prelude.{◌≡◌, ℕ, ◌<◌, true, false, OnOk, OnErr, vec_len};
ghost use Rattle.widget_tree.specs.Depths.{is_opened};
ghost use Rattle.widget_tree.specs.Moves.{MarksOnly};

use std::alloc::AllocError;

// Whether a node is opened: what isn't told of is closed.
pub(crate) fn is_opened(opened: &[bool], k: usize) -> bool
    ensures { result ≡ is_opened opened.now k }
{
    k < opened.len() && opened[k]
}

// Makes room to tell of a node of so many, of which all are told of then.
fn make_room(opened: &mut Vec<bool>, k: usize, count: usize) -> Result<(), AllocError>
    requires { k < count }
    ensures room { OnOk result (k < vec_len opened.new) }
    ensures same { (j : ℕ) → is_opened opened.new.items j ≡ is_opened opened.old.items j }
    ensures err { OnErr result (opened.new.items ≡ opened.old.items) }
{
    if k < opened.len() {
        return Ok(());
    }
    opened.resize(count, false)
}

// Opens a node of so many.
pub(crate) fn open(opened: &mut Vec<bool>, k: usize, count: usize) -> Result<(), AllocError>
    requires { k < count }
    ensures ok { OnOk result (MarksOnly opened.old.items opened.new.items k true) }
    ensures err { OnErr result (opened.new.items ≡ opened.old.items) }
{
    make_room(opened, k, count)?;
    opened[k] = true;
    Ok(())
}

// Closes a node, and answers whether it was opened.
pub(crate) fn close(opened: &mut Vec<bool>, k: usize) -> bool
    ensures value { result ≡ is_opened opened.old.items k }
    ensures marks { MarksOnly opened.old.items opened.new.items k false }
{
    if !is_opened(opened.as_slice(), k) {
        return false;
    }
    opened[k] = false;
    true
}
