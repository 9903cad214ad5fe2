//! Comparisons of values, by the order of `compare`. Those of lists are derived from them.
use crate::yaml::Yaml;
use std::cmp::Ordering;

impl PartialEq for Yaml {
    ghost use Rattle.std.specs.Ordering.{eq_by_cmp};
    ghost use Rattle.std.specs.Cmp.{partial_equiv_from_equiv};
    ghost use Rattle.std.proofs.lemmas.Cmp.{eq_by_cmp_equiv};
    ghost use Rattle.snap_yaml.specs.Compared.{yaml_cmp};
    ghost use Rattle.snap_yaml.specs.OrderLaws.{yaml_total};

    ghost eq = { eq_by_cmp yaml_cmp };

    ghost laws = { partial_equiv_from_equiv (eq_by_cmp_equiv yaml_total) };

    fn eq(&self, other: &Yaml) -> bool {
        self.compare(other).is_eq()
    }
}

impl Eq for Yaml {
    ghost use Rattle.std.proofs.lemmas.Cmp.{eq_by_cmp_equiv};
    ghost use Rattle.snap_yaml.specs.OrderLaws.{yaml_total};

    ghost laws = { eq_by_cmp_equiv yaml_total };
}

impl PartialOrd for Yaml {
    ghost use Rattle.std.specs.Ordering.{as_partial_cmp};
    ghost use Rattle.std.specs.Cmp.{partial_order_from_total};
    ghost use Rattle.snap_yaml.specs.Compared.{yaml_cmp};
    ghost use Rattle.snap_yaml.specs.OrderLaws.{yaml_total};

    ghost partial_cmp = { as_partial_cmp yaml_cmp };

    ghost laws = { partial_order_from_total yaml_total };

    fn partial_cmp(&self, other: &Yaml) -> Option<Ordering> {
        Some(self.compare(other))
    }
}

impl Ord for Yaml {
    ghost use Rattle.std.proofs.Common.{refl};
    ghost use Rattle.snap_yaml.specs.Compared.{yaml_cmp};
    ghost use Rattle.snap_yaml.specs.OrderLaws.{yaml_total};

    ghost cmp = { yaml_cmp };

    ghost total = { yaml_total };

    ghost matches_partial_cmp = { λ x y. refl };

    ghost matches_eq = { λ x y. refl };

    fn cmp(&self, other: &Yaml) -> Ordering {
        self.compare(other)
    }
}
