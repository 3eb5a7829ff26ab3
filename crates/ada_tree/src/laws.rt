ghost use Rattle.std.specs.Prelude.{◌≡◌};
ghost use Rattle.ada_tree.specs.Words.{reserved_of, spelled};
ghost use Rattle.ada_tree.specs.declared.words.Reserved.{Reserved};

/// Each reserved word is read as itself.
pub fn spelled_words()
    ensures { (word : Reserved) → reserved_of (spelled word) ≡ Some word }
{}
