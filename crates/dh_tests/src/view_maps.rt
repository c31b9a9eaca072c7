//! What the views of programs are, without their expressions: worked out by hand, a view of each sort.

use crate::comparing::same;
use crate::texts::{repeated, typed_of};
use dh_tree::{Typed, ViewMap};
use dh_viewing::{judge_views, view_map};
use std::alloc::{AllocError, Global};
use std::test::Fail;

/// The view of a program that is this entity.
fn map_in(alloc: Global, typed: &Typed, entity: u32) -> Result<ViewMap, Fail> {
    let mut breach = None;
    let Some(judged) = judge_views(alloc, typed, &mut breach)? else {
        return Err("no view")?;
    };
    if !judged.has_view(Some(entity)) {
        return Err("no view of this entity")?;
    }
    Ok(view_map(alloc, typed, entity)?)
}

/// Its sort, the kind and the ports of its elements, its dimensions, those of its parent, and its factors.
fn shown(alloc: Global, map: &ViewMap) -> Result<String, AllocError> {
    format!(in alloc;
        "{:?} {:?} {} {:?} of {:?} by {:?}",
        map.sort,
        map.shape.kind,
        map.shape.ports,
        map.shape.dims.as_slice(),
        map.parent.dims.as_slice(),
        map.by.as_slice()
    )
}

/// The view of a program that is this entity, as a text.
fn shown_of(alloc: Global, text: &str, entity: u32) -> Result<String, Fail> {
    let typed = typed_of(alloc, text)?;
    let map = map_in(alloc, &typed, entity)?;
    Ok(shown(alloc, &map)?)
}

/// Texts, the numbers of entities in text order, from 0, and the views that they are.
const VIEWS: &[(&str, u32, &str)] = &[
    (
        "decl A: ubit<8>[12 bank 4];\ndecl B: ubit<8>[4 bank 4];\nfor (let i = 0..3) {\nview r = shift A[by i*i];\nfor (let j = 0..4) unroll 4 {\nB[j] := r[j];\n}\n}",
        3,
        "Shift Unsigned(8) 1 [Dim { size: 12, banks: 4 }] of [Dim { size: 12, banks: 4 }] by []",
    ),
    (
        "decl A: ubit<8>[12 bank 4]; view s = shrink A[by 2];",
        1,
        "Shrink Unsigned(8) 1 [Dim { size: 12, banks: 2 }] of [Dim { size: 12, banks: 4 }] by [2]",
    ),
    (
        "decl A: bit<16>{2}[12 bank 4]; view v = suffix A[by 8 * 1];",
        1,
        "Suffix Signed(16) 2 [Dim { size: 12, banks: 4 }] of [Dim { size: 12, banks: 4 }] by [8]",
    ),
    (
        "decl A: ubit<8>[12 bank 4]; view v = split A[by 2];",
        1,
        "Split Unsigned(8) 1 [Dim { size: 2, banks: 2 }, Dim { size: 6, banks: 2 }] of [Dim { size: 12, banks: 4 }] by [2]",
    ),
    (
        "decl A: ubit<8>[12 bank 4]; view v = split A[by 2]; view t = shrink v[by 2][by 1];",
        2,
        "Shrink Unsigned(8) 1 [Dim { size: 2, banks: 1 }, Dim { size: 6, banks: 2 }] of [Dim { size: 2, banks: 2 }, Dim { size: 6, banks: 2 }] by [2, 1]",
    ),
];

#[test]
fn views_have_the_shapes_of_their_sorts(rt: HostRuntime) -> Result<(), Fail> {
    for (text, entity, want) in VIEWS {
        let got = shown_of(rt.alloc(), text, *entity)?;
        same(&rt, got.as_str(), want, text);
    }
    Ok(())
}

/// The last of ten thousand views.
#[test]
fn a_view_of_many_is_found(rt: HostRuntime) -> Result<(), Fail> {
    let alloc = rt.alloc();
    let head = "decl A: ubit<8>[4 bank 2];\n";
    let text = repeated(alloc, head, "{ view s = shrink A[by 2]; }\n", 10_000)?;
    let got = shown_of(alloc, text.as_str(), 10_000)?;
    let want =
        "Shrink Unsigned(8) 1 [Dim { size: 4, banks: 1 }] of [Dim { size: 4, banks: 2 }] by [2]";
    same(&rt, got.as_str(), want, "the last view");
    Ok(())
}
