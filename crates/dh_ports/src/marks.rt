//! What is left of each of some slots, and marks to come back to.

ghost use Rattle.std.specs.Prelude.{◌≡◌, [], ◌∷◌, ◌<◌, ◌≤◌, ◌==◌, ◌+◌, ◌++◌, Some, IfOk, OnOk, length, min, slice_get, slice_set};
ghost use Rattle.dh_ports.specs.Logs.{AreBegun, AreLowered, AreSlotMarks, GoesBack, LeftAt, LeftIf, NotesLow, NotesLows, StaysOfSlots};

use std::alloc::AllocFailed;

/// How much of a slot was left.
#[derive(Clone, Copy)]
pub struct SlotMark {
    /// The slot's number.
    pub slot: usize,
    /// What was left.
    pub left: usize,
}

/// Whether two numbers are one.
fn same(one: usize, other: usize) -> bool
    ensures { result ≡ (one == other) }
{
    one == other
}

/// The smaller of two numbers.
fn smaller(one: usize, other: usize) -> usize
    ensures { result ≡ min one other }
{
    one.min(other)
}

/// What a mark says was left, where it is of a slot.
fn left_if(mark: SlotMark, slot: usize) -> Option<usize>
    ensures { LeftIf mark slot result }
{
    if same(mark.slot, slot) {
        Some(mark.left)
    } else {
        None
    }
}

/// The mark at a place.
fn mark_at(marks: &[SlotMark], place: usize) -> SlotMark
    requires there { place < length marks.now }
    ensures { slice_get marks.now place ≡ Some result }
{
    marks[place]
}

/// What the mark at a place says was left, where one stands there that is of a slot.
fn left_at(marks: &[SlotMark], place: usize, slot: usize) -> Option<usize>
    ensures { LeftAt marks.now place slot result }
{
    if place < marks.len() {
        left_if(mark_at(marks, place), slot)
    } else {
        None
    }
}

/// Puts a mark in the place of another one.
fn set_slice(marks: &mut [SlotMark], place: usize, mark: SlotMark)
    requires there { place < length marks.old }
    ensures { marks.new ≡ slice_set marks.old place mark }
{
    marks[place] = mark;
}

/// `set_slice` of a vector.
fn set_mark(marks: &mut Vec<SlotMark>, place: usize, mark: SlotMark)
    requires there { place < length marks.old.items }
    ensures { marks.new.items ≡ slice_set marks.old.items place mark }
{
    set_slice(marks.as_mut_slice(), place, mark);
}

/// Adds a mark.
fn push_mark(marks: &mut Vec<SlotMark>, mark: SlotMark) -> Result<(), AllocFailed<SlotMark>>
    ensures { OnOk result (marks.new.items ≡ marks.old.items ++ mark ∷ []) }
{
    marks.push(mark)?;
    Ok(())
}

/// Adds a low, or lowers the one at a place, where it is of the same slot: parts that are alike note their lows in one
/// order, and need those of one part.
fn note_low(
    lows: &mut Vec<SlotMark>,
    place: usize,
    low: SlotMark,
) -> Result<(), AllocFailed<SlotMark>>
    ensures { OnOk result (NotesLow lows.old.items lows.new.items low) }
{
    let Some(before) = left_at(lows.as_slice(), place, low.slot) else {
        return push_mark(lows, low);
    };
    let left = smaller(before, low.left);
    let slot = low.slot;
    set_mark(lows, place, SlotMark { slot, left });
    Ok(())
}

/// Notes what is now left of each slot of a log.
pub fn note_lows(
    left: &[usize],
    log: &[SlotMark],
    lows: &mut Vec<SlotMark>,
) -> Result<(), AllocFailed<SlotMark>>
    requires inside { AreSlotMarks (length left.now) log.now }
    ensures { IfOk result (λ _. NotesLows left.now log.now lows.old.items lows.new.items) }
{
    let mut place: usize = 0;
    for mark in log {
        note_low(
            lows,
            place,
            SlotMark {
                slot: mark.slot,
                left: left[mark.slot],
            },
        )?;
        place = place.saturating_add(1);
    }
    Ok(())
}

/// Gives each slot what a log says was left at its begin.
fn undo_slice(left: &mut [usize], log: &[SlotMark])
    requires inside { AreSlotMarks (length left.old) log.now }
    ensures long { length left.new ≡ length left.old }
    ensures begun { AreBegun log.now left.old left.new }
{
    for i in (0..log.len()).rev() {
        left[log[i].slot] = log[i].left;
    }
}

/// Lowers what is left to the least of the lows, and logs what was left.
fn lower_slice(
    left: &mut [usize],
    lows: &[SlotMark],
    log: &mut Vec<SlotMark>,
) -> Result<(), AllocFailed<SlotMark>>
    requires inside { AreSlotMarks (length left.old) lows.now }
    ensures long { length left.new ≡ length left.old }
    ensures lowered { IfOk result (λ _. AreLowered lows.now left.old left.new) }
    ensures logged { IfOk result (λ _. GoesBack log.new.items left.new log.old.items left.old) }
    ensures marks { IfOk result (λ _. StaysOfSlots (length left.old) log.old.items log.new.items) }
    ensures few { IfOk result (λ _. length log.new.items ≤ length log.old.items + length lows.now) }
{
    for low in lows {
        let now = left[low.slot];
        if low.left < now {
            log.push(SlotMark {
                slot: low.slot,
                left: now,
            })?;
            left[low.slot] = low.left;
        }
    }
    Ok(())
}

/// `undo_slice` of a vector.
pub fn undo(left: &mut Vec<usize>, log: &[SlotMark])
    requires inside { AreSlotMarks (length left.old.items) log.now }
    ensures long { length left.new.items ≡ length left.old.items }
    ensures begun { AreBegun log.now left.old.items left.new.items }
{
    undo_slice(left.as_mut_slice(), log);
}

/// `lower_slice` of a vector.
pub fn lower(
    left: &mut Vec<usize>,
    lows: &[SlotMark],
    log: &mut Vec<SlotMark>,
) -> Result<(), AllocFailed<SlotMark>>
    requires inside { AreSlotMarks (length left.old.items) lows.now }
    ensures long { length left.new.items ≡ length left.old.items }
    ensures lowered { IfOk result (λ _. AreLowered lows.now left.old.items left.new.items) }
    ensures logged { IfOk result
        (λ _. GoesBack log.new.items left.new.items log.old.items left.old.items) }
    ensures marks { IfOk result (λ _. StaysOfSlots
        (length left.old.items) log.old.items log.new.items) }
    ensures few { IfOk result (λ _. length log.new.items ≤ length log.old.items + length lows.now) }
{
    lower_slice(left.as_mut_slice(), lows, log)
}
