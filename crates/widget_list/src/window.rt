//! Which items of a list are shown. Only these are looked at.

ghost use Rattle.std.specs.Prelude.{◌≡◌, ◌≤◌, ◌<◌, ◌+◌, length, IfSome};
ghost use Rattle.widget_list.specs.Windows.{rows_before, Fit, IsCount, IsFirst, first_kept, last_kept};
ghost use Rattle.widget_list.specs.Windows.{IsPadding, IsScrolled, IsOffset};

use crate::item::ListItem;

// How many items are shown from one on in so many rows.
pub(crate) fn count_from(items: &[ListItem<'_>], from: usize, height: usize) -> usize
    requires { from ≤ length items.now }
    ensures { IsCount items.now height from result }
{
    let mut left = height;
    let mut count = 0;
    while count < items.len() - from {
        let rows = items[from + count].height();
        if rows > left {
            return count;
        }
        left -= rows;
        count += 1;
    }
    count
}

// The first item, from one on, with which all up to another one fit into so many rows.
fn first_fitting(items: &[ListItem<'_>], least: usize, last: usize, height: usize) -> usize
    requires order { least ≤ last }
    requires inside { last < length items.now }
    ensures { IsFirst items.now height least last result }
{
    let rows = items[last].height();
    if rows > height {
        return last;
    }
    let mut left = height - rows;
    let mut first = last;
    while first > least {
        let rows = items[first - 1].height();
        if rows > left {
            return first;
        }
        left -= rows;
        first -= 1;
    }
    first
}

// How many rows the item before those that are kept in view takes, if there is one.
fn rows_above(items: &[ListItem<'_>], selected: usize, padding: usize) -> usize
    requires { selected < length items.now }
    ensures { let first = first_kept selected (padding + 1) in
        rows_before items.now first + result
        ≡ rows_before items.now (first_kept selected padding) }
{
    if padding >= selected {
        return 0;
    }
    items[selected - padding - 1].height()
}

// How many rows the item after those that are kept in view takes, if there is one.
fn rows_below(items: &[ListItem<'_>], selected: usize, padding: usize) -> usize
    requires { selected < length items.now }
    ensures { let last = last_kept items.now selected padding in
        rows_before items.now (last + 1) + result
        ≡ rows_before items.now (last_kept items.now selected (padding + 1) + 1) }
{
    if padding >= items.len() - selected - 1 {
        return 0;
    }
    items[selected + padding + 1].height()
}

// How many items are kept in view on each side of the selected one.
fn padding_for(items: &[ListItem<'_>], asked: usize, selected: usize, height: usize) -> usize
    requires { selected < length items.now }
    ensures { IsPadding items.now height asked selected result }
{
    let rows = items[selected].height();
    if rows > height {
        return 0;
    }
    let most = asked.min(items.len());
    let mut left = height - rows;
    let mut padding = 0;
    while padding < most {
        let above = rows_above(items, selected, padding);
        let below = rows_below(items, selected, padding);
        if above > left {
            return padding;
        }
        if below > left - above {
            return padding;
        }
        left -= above + below;
        padding += 1;
    }
    padding
}

// Where a list begins that began with an item, so that some items are in view.
fn scrolled(items: &[ListItem<'_>], first: usize, last: usize, was: usize, height: usize) -> usize
    requires order { first ≤ last }
    requires inside { last < length items.now }
    requires known { was < length items.now }
    requires fits { first < last → Fit items.now height first (last + 1) }
    ensures scrolled { IsScrolled items.now height first last was result }
    ensures inside { result < length items.now }
{
    if last < was {
        return first;
    }
    let nearest = first_fitting(items, was, last, height);
    if was < nearest {
        return nearest;
    }
    first.min(was)
}

// Where a list begins that began with an item.
pub(crate) fn offset_for(
    items: &[ListItem<'_>],
    asked: usize,
    selected: Option<usize>,
    was: usize,
    height: usize,
) -> usize
    requires some { 0 < length items.now }
    requires inside { IfSome selected (λ s. s < length items.now) }
    ensures offset { IsOffset items.now height asked selected was result }
    ensures inside { result < length items.now }
{
    let last = items.len() - 1;
    let was = was.min(last);
    let Some(selected) = selected else {
        return was;
    };
    let padding = padding_for(items, asked, selected, height);
    let first_kept = selected.saturating_sub(padding);
    let last_kept = selected.saturating_add(padding).min(last);
    scrolled(items, first_kept, last_kept, was, height)
}
