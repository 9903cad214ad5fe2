//! Comparisons of trees, by the order of `compare`. Those of lists are derived from them.
use crate::content::Content;
use std::cmp::Ordering;

impl PartialEq for Content {
    ghost use Rattle.std.specs.Ordering.{eq_by_cmp};
    ghost use Rattle.std.specs.Cmp.{partial_equiv_from_equiv};
    ghost use Rattle.std.proofs.lemmas.Cmp.{eq_by_cmp_equiv};
    ghost use Rattle.snap_content.specs.Compared.{content_cmp};
    ghost use Rattle.snap_content.specs.OrderLaws.{content_total};

    ghost eq = { eq_by_cmp content_cmp };

    ghost laws = { partial_equiv_from_equiv (eq_by_cmp_equiv content_total) };

    fn eq(&self, other: &Content) -> bool {
        self.compare(other).is_eq()
    }
}

impl Eq for Content {
    ghost use Rattle.std.proofs.lemmas.Cmp.{eq_by_cmp_equiv};
    ghost use Rattle.snap_content.specs.OrderLaws.{content_total};

    ghost laws = { eq_by_cmp_equiv content_total };
}

impl PartialOrd for Content {
    ghost use Rattle.std.specs.Ordering.{as_partial_cmp};
    ghost use Rattle.std.specs.Cmp.{partial_order_from_total};
    ghost use Rattle.snap_content.specs.Compared.{content_cmp};
    ghost use Rattle.snap_content.specs.OrderLaws.{content_total};

    ghost partial_cmp = { as_partial_cmp content_cmp };

    ghost laws = { partial_order_from_total content_total };

    fn partial_cmp(&self, other: &Content) -> Option<Ordering> {
        Some(self.compare(other))
    }
}

impl Ord for Content {
    ghost use Rattle.std.proofs.Common.{refl};
    ghost use Rattle.snap_content.specs.Compared.{content_cmp};
    ghost use Rattle.snap_content.specs.OrderLaws.{content_total};

    ghost cmp = { content_cmp };

    ghost total = { content_total };

    ghost matches_partial_cmp = { λ x y. refl };

    ghost matches_eq = { λ x y. refl };

    fn cmp(&self, other: &Content) -> Ordering {
        self.compare(other)
    }
}
