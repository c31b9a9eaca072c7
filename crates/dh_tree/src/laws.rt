//! What holds of all trees, stated on functions that do nothing.

ghost use Rattle.std.specs.Prelude.{◌≡◌, ℕ, ◌<◌, List, [], Vec, None};
ghost use Rattle.std.specs.Global.{Global};
ghost use Rattle.dh_tree.specs.declared.trees.expressions.Ref.{Ref};
ghost use Rattle.dh_tree.specs.declared.trees.expressions.Expr.{Expr};
ghost use Rattle.dh_tree.specs.declared.trees.commands.Command.{Command};
ghost use Rattle.dh_tree.specs.declared.breaches.Breach.{Breach};
ghost use Rattle.dh_tree.specs.declared.tables.Dim.{Dim};
ghost use Rattle.dh_tree.specs.Elements.{banks_of, rows_of, bank_of, row_of, position_of};
ghost use Rattle.dh_tree.specs.ElementPlaces.{OfEachElement, BankAndRowTellPlace, RowsHavePlaces, PlacesLieInBanks, PlacesTellRows};
ghost use Rattle.dh_tree.specs.Tables.{elements_of};
ghost use Rattle.dh_tree.specs.LeastBreach.{least_of, KeepsLeast, HasAtMostOneLeast};
ghost use Rattle.dh_tree.specs.Forms.{unbuilt_forms};
ghost use Rattle.dh_tree.specs.PlainTrees.{Program, StaysAfter};
ghost use Rattle.dh_tree.specs.Resolved.{HasEntities, resolved};
ghost use Rattle.dh_tree.specs.Breaches.{KeepsNames};
ghost use Rattle.dh_tree.specs.Kinds.{HasKinds, typed};
ghost use Rattle.dh_tree.specs.Memories.{table_of};
ghost use Rattle.dh_tree.specs.Ready.{IfKeepsMemories};
ghost use Rattle.dh_tree.specs.Shapes.{IsProgramTable};
ghost use Rattle.dh_tree.specs.Written.{IsOfText};
ghost use Rattle.dh_tree.specs.Seen.{SeesIndices, SeesParts};

/// The plain tree of an access has the plain trees of its indices in order, and that of a block those
/// of its parts.
pub fn lists_are_seen_in_order()
    ensures indices { (of : Ref) (indices : Vec Expr Global) → SeesIndices of indices }
    ensures parts { (body : Vec (Vec Command Global) Global) → SeesParts body }
{}

/// Of breaches that are gone through, the one that is kept is the least; where none is kept, there is
/// none. At most one is the least.
pub fn kept_is_least()
    ensures none { (breaches : List Breach) → least_of None breaches ≡ None → breaches ≡ [] }
    ensures least { (breaches : List Breach) → KeepsLeast breaches }
    ensures one { (breaches : List Breach) → HasAtMostOneLeast breaches }
{}

/// Once names are resolved the same forms are not built, and a tree of a text still is one.
pub fn resolving_keeps_forms()
    ensures forms { (p : Program) → unbuilt_forms (resolved p) ≡ unbuilt_forms p }
    ensures of_text { (tokens : ℕ) → StaysAfter resolved (IsOfText tokens) }
{}

/// Once the kinds of expressions are filled in, every expression has the kind that it is found to have; a
/// program that kept the rules on names still does, and one whose names had their entities still has them;
/// the same forms are not built; and a tree of a text still is one.
pub fn typing_keeps_programs()
    ensures kinds { (p : Program) → HasKinds (typed p) }
    ensures names { StaysAfter typed KeepsNames }
    ensures entities { StaysAfter typed HasEntities }
    ensures forms { (p : Program) → unbuilt_forms (typed p) ≡ unbuilt_forms p }
    ensures of_text { (tokens : ℕ) → StaysAfter typed (IsOfText tokens) }
{}

/// An element within its dimensions lies in one of the banks, in a row of it, and at a place among all
/// elements, which its bank and row tell; and so has each row of a bank a place among all elements. Each
/// place is that of one row of one bank: from bank and row to place is onto and one to one.
pub fn elements_lie_in_banks()
    ensures bank { OfEachElement (λ dims indices. bank_of dims indices < banks_of dims) }
    ensures row { OfEachElement (λ dims indices. row_of dims indices < rows_of dims) }
    ensures position { OfEachElement (λ dims indices. position_of dims indices < elements_of dims) }
    ensures told { OfEachElement BankAndRowTellPlace }
    ensures in_bank { (dims : List Dim) → RowsHavePlaces dims }
    ensures onto { (dims : List Dim) → PlacesLieInBanks dims }
    ensures one { (dims : List Dim) → PlacesTellRows dims }
{}

/// The memories of a program of a text whose forms are built and that
/// keeps the rules on names, shapes, indices and places and the limits on memories, are a table: each has a name
/// and the shape of a memory, those from outside have names that differ, local ones stand behind them, and they
/// have few enough elements together.
pub fn kept_programs_have_tables()
    ensures { (p : Program) (tokens : ℕ) → IfKeepsMemories tokens p (IsProgramTable (table_of p)) }
{}
