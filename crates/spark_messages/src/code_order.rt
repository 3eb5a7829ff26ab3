// Codes are compared by their texts, byte by byte.
ghost use Rattle.std.specs.Prelude.{nat_eq};
ghost use Rattle.std.specs.Ordering.{nat_cmp, on, as_partial_cmp};
ghost use Rattle.std.specs.Cmp.Lexicographic.{pointwise, slice_cmp};
ghost use Rattle.std.specs.Cmp.{partial_order_from_own_ties};
ghost use Rattle.std.specs.Cmp.Rules.{comparing};
ghost use Rattle.std.proofs.Common.{rules};
ghost use Rattle.spark_messages.specs.Message.{code_text};

use crate::messages::Code;
use std::cmp::Ordering;

impl PartialEq for Code {
    ghost eq = { on code_text (pointwise nat_eq) };

    ghost laws = { Prim.search (comparing, rules) };

    fn eq(&self, other: &Self) -> bool {
        self.name().as_bytes() == other.name().as_bytes()
    }
}

impl Eq for Code {
    ghost laws = { Prim.search (comparing, rules) };
}

impl PartialOrd for Code {
    ghost partial_cmp = { as_partial_cmp (on code_text (slice_cmp nat_cmp)) };

    ghost laws = { partial_order_from_own_ties (Prim.search (comparing, rules)) (Prim.search (comparing, rules)) };

    fn partial_cmp(&self, other: &Self) -> Option<Ordering> {
        Some(self.cmp(other))
    }
}

impl Ord for Code {
    ghost cmp = { on code_text (slice_cmp nat_cmp) };

    ghost total = { Prim.search (comparing, rules) };

    ghost matches_partial_cmp = { Prim.search (comparing, rules) };

    ghost matches_eq = { Prim.search (comparing, rules) };

    fn cmp(&self, other: &Self) -> Ordering {
        self.name().as_bytes().cmp(other.name().as_bytes())
    }
}
