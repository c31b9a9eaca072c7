//! The paths inside loops that stand one in the other: a path goes by its number among all of
//! them in ascending order, and no list of paths is ever made.

ghost use Rattle.std.specs.Prelude.{◌≡◌, ◌-◌, ◌^◌, [], min, IfOk};
ghost use Rattle.dh_expressions.specs.Levels.{copy_number, count_inside, is_counted_level, last_number, leader_number, levels_inside, part_number, rank_number, spread_level};

use dh_base::NoMemory;
use std::alloc::Global;

/// An unrolled loop, as the number of a path tells its copy: `number / stride % factor`.
#[derive(Clone, Copy)]
pub struct Level {
    /// Its iterator.
    pub entity: Option<u32>,
    /// Its copies.
    pub factor: u64,
    /// The copies of the loops inside it together.
    pub stride: u64,
}

/// The paths inside loops.
#[derive(Drop)]
pub struct Paths {
    /// The loops, from the outside.
    pub levels: Vec<Level>,
    /// How many paths there are.
    pub count: u64,
}

/// The one path outside every loop.
pub fn outside(alloc: Global) -> Paths
    ensures levels { result.levels.items ≡ [] }
    ensures count { result.count ≡ 1 }
{
    Paths {
        levels: Vec::new(alloc),
        count: 1,
    }
}

/// A loop with further copies inside it.
fn spread(level: Level, factor: u64) -> Level
    ensures { result ≡ spread_level factor level }
{
    Level {
        entity: level.entity,
        factor: level.factor,
        stride: level.stride.saturating_mul(factor),
    }
}

/// The paths inside a loop of so many copies; one of a single copy adds nothing.
pub fn inside(
    alloc: Global,
    outer: &Paths,
    entity: Option<u32>,
    factor: u64,
) -> Result<Paths, NoMemory>
    ensures levels { IfOk result (λ r. r.levels.items ≡ levels_inside outer.now.levels.items
        entity factor) }
    ensures count { IfOk result (λ r. r.count ≡ count_inside outer.now.count factor) }
{
    let mut levels = Vec::new(alloc);
    if factor <= 1 {
        levels.extend_from_slice(outer.levels.as_slice())?;
        return Ok(Paths {
            levels,
            count: outer.count,
        });
    }
    for level in outer.levels.as_slice() {
        levels.push(spread(*level, factor))?;
    }
    levels.push(Level {
        entity,
        factor,
        stride: 1,
    })?;
    Ok(Paths {
        levels,
        count: outer.count.saturating_mul(factor),
    })
}

/// The copy of a loop at the path of a number.
pub fn copy_at(level: Level, number: u64) -> u64
    ensures { result ≡ copy_number level number }
{
    if level.stride == 0 || level.factor == 0 {
        return 0;
    }
    number / level.stride % level.factor
}

/// The rank of the first copies of a path, so many, among those as long.
pub fn rank_at(levels: &[Level], depth: u32, number: u64) -> u64
    ensures { result ≡ rank_number levels.now depth number }
{
    if depth == 0 {
        return 0;
    }
    match levels.get(depth as usize - 1) {
        Some(level) => {
            if level.stride == 0 {
                0
            } else {
                number / level.stride
            }
        }
        None => number,
    }
}

/// The copy of the loop that is the last of so many.
pub fn last_copy(levels: &[Level], depth: u32, number: u64) -> u64
    ensures { result ≡ last_number levels.now depth number }
{
    if depth == 0 {
        return 0;
    }
    match levels.get(depth as usize - 1) {
        Some(level) => copy_at(*level, number),
        None => 0,
    }
}

/// What the copy of a loop adds to the number of a path that has the copies of a path in loops
/// that count alone.
fn leader_part(level: Level, counts: bool, number: u64) -> u64
    ensures { result ≡ min (part_number level counts number) (2 ^ 64 - 1) }
{
    if counts {
        copy_at(level, number).saturating_mul(level.stride)
    } else {
        0
    }
}

/// Whether a loop counts.
fn counts_at(counts: &[bool], level: usize) -> bool
    ensures { result ≡ is_counted_level counts.now level }
{
    level < counts.len() && counts[level]
}

/// The first path that has the copies of a path in the loops that count; never a later one than
/// the path itself.
pub fn leader_of(levels: &[Level], counts: &[bool], number: u64) -> u64
    ensures { result ≡ leader_number levels.now (is_counted_level counts.now) number }
{
    let mut leader: u64 = 0;
    for i in 0..levels.len() {
        let part = leader_part(levels[i], counts_at(counts, i), number);
        leader = leader.saturating_add(part);
    }
    leader.min(number)
}
