//! Laws on the leaves of types.
ghost use Rattle.std.specs.Prelude.{◌≡◌, ℕ, List, length};
ghost use Rattle.spark_base.specs.declared.numbers.TypeNo.{TypeNo};
ghost use Rattle.types_objects.specs.declared.types.TypeDef.{TypeDef};
ghost use Rattle.types_objects.specs.Types.{paths};
ghost use Rattle.types_objects.specs.Counts.{count};

/// A type has as many paths as leaves.
pub fn paths_and_leaves()
    ensures { (list : List TypeDef) (prefix : List ℕ) (t : TypeNo) → length (paths list prefix t) ≡ count list t }
{}
