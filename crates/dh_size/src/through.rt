//! The banks of memories that are reached through views.

ghost use Rattle.std.specs.Prelude.{◌≡◌, ◌≤◌, ◌<◌, length, slice_index};
ghost use Rattle.dh_tree.specs.Shapes.{most_banks};
ghost use Rattle.dh_ports.specs.Carriers.{is_carried, HasSourcesBelow};
ghost use Rattle.dh_size.specs.Marks.{any_marked, marked_behind};
ghost use Rattle.dh_size.specs.Sizes.{count_below};

use dh_ports::{Carrier, carries};
use dh_ways::WayTable;

/// The views of a program.
#[derive(Clone, Copy)]
pub struct Views<'a> {
    /// They with their ways.
    pub ways: &'a WayTable,
    /// By the place of each how charges are carried through it.
    pub carriers: &'a [Carrier],
}

/// Whether one of these marks is set.
fn any_mark(marks: &[bool]) -> bool
    ensures { result ≡ any_marked marks.now }
{
    for mark in marks {
        if *mark {
            return true;
        }
    }
    false
}

/// Whether a bank of a memory is reached where these banks of a view are marked, one of them or none.
fn is_behind(carrier: &Carrier, marks: &[bool], any: bool, behind: usize) -> bool
    requires there { behind < length carrier.now.sources.items }
    requires within { slice_index carrier.now.sources.items behind < length marks.now }
    requires any { any ≡ any_marked marks.now }
    ensures { result ≡ marked_behind carrier.now marks.now behind }
{
    if carrier.evenly {
        any
    } else {
        let source = carrier.sources[behind];
        marks[source]
    }
}

/// The banks of a memory that are reached where these banks of a view are marked.
pub fn count_behind(carrier: &Carrier, marks: &[bool]) -> u64
    requires few { length carrier.now.sources.items ≤ most_banks }
    requires within { HasSourcesBelow carrier.now (length marks.now) }
    ensures { result ≡ count_below (marked_behind carrier.now marks.now)
        (length carrier.now.sources.items) }
{
    let any = any_mark(marks);
    let mut count: u64 = 0;
    for behind in 0..carrier.sources.len() {
        if is_behind(carrier, marks, any, behind) {
            count = count + 1;
        }
    }
    count
}

/// The banks of a memory that are reached from one bank of a view.
pub fn count_carried(carrier: &Carrier, bank: u64) -> u64
    requires few { length carrier.now.sources.items ≤ most_banks }
    ensures { result ≡ count_below (is_carried carrier.now bank)
        (length carrier.now.sources.items) }
{
    let mut count: u64 = 0;
    for behind in 0..carrier.sources.len() {
        if carries(carrier, bank, behind) {
            count = count + 1;
        }
    }
    count
}
