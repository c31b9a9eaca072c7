//! How many phases a command has by those of its parts, as far as the rules and the lengths of phases ask: none, one
//! straight phase, or others (2).

ghost use Rattle.std.specs.Prelude.{◌≡◌, ◌+◌, min};
ghost use Rattle.dh_tree.specs.PhaseKinds.{choice_kind, turns_kind};

/// How many phases a loop has, by those of its body and of the block that joins its copies: none,
/// where it has no turn or its turns none; else its turns are one that is not straight (2).
pub fn kind_of_turns(turns: u64, body: usize, combine: usize) -> usize
    ensures { result ≡ turns_kind turns body combine }
{
    if turns == 0 || (body == 0 && combine == 0) {
        0
    } else {
        2
    }
}

/// How many phases an `if` has: it is straight where its arms are.
pub fn kind_of_choice(chosen: usize, other: usize) -> usize
    ensures { result ≡ choice_kind chosen other }
{
    if chosen.max(other) >= 2 { 2 } else { 1 }
}

/// How many phases there are with those of a part behind others (2 for more).
pub fn kind_behind(before: usize, part: usize) -> usize
    ensures { result ≡ min 2 (before + part) }
{
    if before >= 2 || part >= 2 {
        2
    } else {
        (before + part).min(2)
    }
}
