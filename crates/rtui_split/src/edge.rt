//! Parts that lie over one another, where some would begin before the area or end after it.

use crate::share::{share, stretch};
use crate::slot::Slot;
use rtui_layout::Flex;

/// What the first space takes, and what all spaces between parts take.
#[derive(Debug, Clone, Copy, Drop)]
pub(crate) struct Gaps {
    pub lead: u64,
    pub middle: u64,
}

/// How parts lie over one another, in units: how far, in which area, and what becomes of the rest.
#[derive(Debug, Clone, Copy, Drop)]
pub(crate) struct Overlapped {
    pub overlap: u64,
    pub whole: u64,
    pub flex: Flex,
}

// Parts next to one another that are shared together, what those before them take, and what these
// take with the spaces at their ends.
#[derive(Debug, Clone, Copy, Drop)]
struct Range {
    low: usize,
    high: usize,
    base: u64,
    sum: u64,
}

// Where what stands before a part has to change, and to what.
#[derive(Debug, Clone, Copy, Drop)]
struct Fault {
    at: usize,
    sum: u64,
}

// The place where the sizes miss the area by most.
fn worst_fault(slots: &[Slot], range: Range, lead: u64, over: u64, whole: u64) -> Option<Fault> {
    let mut fault = None;
    let mut worst: u64 = 0;
    let mut sum = range.base.saturating_add(lead);
    for (i, slot) in slots.iter().enumerate() {
        if i > 0 {
            let at = range.low.saturating_add(i);
            let least = (at as u64).saturating_mul(over);
            let most = whole.saturating_add((at as u64).saturating_sub(1).saturating_mul(over));
            if least.saturating_sub(sum) > worst {
                worst = least.saturating_sub(sum);
                fault = Some(Fault { at, sum: least });
            }
            if sum.saturating_sub(most) > worst {
                worst = sum.saturating_sub(most);
                fault = Some(Fault { at, sum: most });
            }
        }
        sum = sum.saturating_add(slot.size);
    }
    fault
}

// The parts from one on that are shared together with it.
fn range_from(slots: &[Slot], low: usize, end: u64) -> Range {
    let base = slots.get(low).and_then(|slot| slot.base).unwrap_or(0);
    for (i, slot) in slots.iter().enumerate() {
        if i > low {
            if let Some(next) = slot.base {
                return Range {
                    low,
                    high: i,
                    base,
                    sum: next.saturating_sub(base),
                };
            }
        }
    }
    Range {
        low,
        high: slots.len(),
        base,
        sum: end.saturating_sub(base),
    }
}

// Shares the parts of a range, and says what its spaces take; a fault if it doesn't keep to the
// area.
fn share_range(slots: &mut [Slot], case: Overlapped, range: Range) -> (Gaps, Option<Fault>) {
    let mut gaps = Gaps { lead: 0, middle: 0 };
    let count = slots.len();
    let inner = (count as u64).saturating_sub(1);
    let (low, high) = (range.low, range.high);
    let Some(slots) = slots.get_mut(low..high) else {
        return (gaps, None);
    };
    let left = share(slots, matches!(case.flex, Flex::Legacy), range.sum);
    let front = low == 0 && matches!(case.flex, Flex::End | Flex::Center);
    let back = high == count && matches!(case.flex, Flex::Start | Flex::Center);
    let between = low == 0 && high == count && matches!(case.flex, Flex::SpaceBetween);
    let mut over = case.overlap;
    if front {
        gaps.lead = if back { left / 2 } else { left };
    } else if between {
        gaps.middle = left;
        over = over.saturating_sub(left / inner.max(1));
    } else if !back {
        stretch(slots, left);
    }
    (gaps, worst_fault(slots, range, gaps.lead, over, case.whole))
}

/// Gives parts that overlap their sizes.
pub(crate) fn share_overlapped(slots: &mut [Slot], case: Overlapped) -> Gaps {
    let count = slots.len();
    let inner = (count as u64).saturating_sub(1);
    let end = case
        .whole
        .saturating_add(case.overlap.saturating_mul(inner));
    let mut gaps = Gaps { lead: 0, middle: 0 };
    let mut low: usize = 0;
    for _ in 0..count.saturating_mul(2) {
        if low >= count {
            break;
        }
        let range = range_from(slots, low, end);
        let (found, fault) = share_range(slots, case, range);
        if let Some(fault) = fault {
            if let Some(slot) = slots.get_mut(fault.at) {
                slot.base = Some(fault.sum);
            }
        } else {
            gaps.lead = gaps.lead.max(found.lead);
            gaps.middle = gaps.middle.max(found.middle);
            low = range.high;
        }
    }
    gaps
}
