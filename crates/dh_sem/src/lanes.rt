//! The paths inside unrolled loops, by the ranks of their beginnings.

ghost use Rattle.std.specs.Prelude.{◌≡◌, ◌<◌, ◌∷◌, ◌++◌, [], IfOk, length};
ghost use Rattle.std.specs.List.{range_with_len};
ghost use Rattle.dh_code.specs.Rows.{contents_of};
ghost use Rattle.dh_sem.specs.Lanes.{AddsPathCopies, AreFirstLanes, LanesInside, copied_rows, rank_kept};

use dh_base::NoMemory;
use std::alloc::Global;

/// The paths inside loops.
#[derive(Drop)]
pub struct Lanes {
    /// Of each path, in ascending order, the rank of each of its beginnings among those as long.
    pub rows: Vec<Vec<u32>>,
    /// The numbers of all paths.
    pub all: Vec<usize>,
}

/// The ranks of a path inside a loop, from those of the path outside it.
fn copied(alloc: Global, outer: &[u32], rank: u32) -> Result<Vec<u32>, NoMemory>
    ensures { IfOk result (λ ranks. ranks.items ≡ outer.now ++ rank ∷ []) }
{
    let mut ranks = Vec::from_slice(alloc, outer)?;
    ranks.push(rank)?;
    Ok(ranks)
}

/// The numbers from 0, so many.
fn numbers(alloc: Global, count: usize) -> Result<Vec<usize>, NoMemory>
    ensures { IfOk result (λ all. all.items ≡ range_with_len 0 count) }
{
    let mut all = Vec::new(alloc);
    for i in 0..count {
        all.push(i)?;
    }
    Ok(all)
}

/// The lanes of a program outside its loops: one path.
pub fn first_lanes(alloc: Global) -> Result<Vec<Lanes>, NoMemory>
    ensures { IfOk result (λ lanes. AreFirstLanes lanes.items) }
{
    let mut rows = Vec::new(alloc);
    rows.push(copied(alloc, &[], 0)?)?;
    let all = numbers(alloc, rows.len())?;
    let mut lanes = Vec::new(alloc);
    lanes.push(Lanes { rows, all })?;
    Ok(lanes)
}

/// The rank of a path before which there are so many. (Where it can't be kept, there are more paths
/// than memory holds.)
fn rank_behind(count: usize) -> u32
    ensures { result ≡ rank_kept count }
{
    if count < u32::MAX as usize {
        count as u32
    } else {
        u32::MAX
    }
}

/// Adds the copies of a path: so many, in ascending order.
fn add_copies(
    alloc: Global,
    rows: &mut Vec<Vec<u32>>,
    row: &[u32],
    factor: u64,
) -> Result<(), NoMemory>
    ensures { IfOk result (λ _. AddsPathCopies rows.old.items rows.new.items row.now factor) }
{
    for _ in 0..factor {
        let rank = rank_behind(rows.len());
        rows.push(copied(alloc, row, rank)?)?;
    }
    Ok(())
}

/// The paths inside a loop, from those outside it: of each the copies, in ascending order.
fn copies(alloc: Global, outer: &[Vec<u32>], factor: u64) -> Result<Vec<Vec<u32>>, NoMemory>
    ensures { IfOk result (λ rows. contents_of rows.items
        ≡ copied_rows 0 factor (contents_of outer.now)) }
{
    let mut rows = Vec::new(alloc);
    for row in outer {
        add_copies(alloc, &mut rows, row.as_slice(), factor)?;
    }
    Ok(rows)
}

/// The number of the lanes inside a loop of so many copies; a loop of one copy has those outside
/// it.
pub fn inside(
    alloc: Global,
    lanes: &mut Vec<Lanes>,
    outside: usize,
    factor: u64,
) -> Result<usize, NoMemory>
    requires there { outside < length lanes.old.items }
    ensures { IfOk result (λ number. LanesInside lanes.old.items lanes.new.items outside factor
        number) }
{
    if factor <= 1 {
        return Ok(outside);
    }
    let rows = copies(alloc, lanes[outside].rows.as_slice(), factor)?;
    let number = lanes.len();
    let all = numbers(alloc, rows.len())?;
    lanes.push(Lanes { rows, all })?;
    Ok(number)
}
