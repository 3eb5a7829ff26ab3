ghost use Rattle.std.specs.Prelude.{◌≡◌, ℕ, List};
ghost use Rattle.spark_base.specs.declared.numbers.FileNo.{FileNo};
ghost use Rattle.first_path.specs.Symbols.{Spells};
ghost use Rattle.first_path.specs.declared.source.Source.{Source};

/// The bytes of a file spell one source at most.
pub fn sources_are_one()
    ensures { (file : FileNo) (bytes : List ℕ) (s t : Source) → Spells file bytes s → Spells file bytes t → s ≡ t }
{}
