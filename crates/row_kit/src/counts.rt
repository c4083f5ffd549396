//! Domains with one value, and with none.
ghost use Rattle.std.specs.Prelude.{◌↔◌, IsTrue};
ghost use Rattle.std.specs.List.{All, Any};
ghost use Rattle.row_kit.specs.Domain.{IsBare, IsSingle};

use crate::domain::Domain;

// Whether each domain has one value.
pub fn are_single(domains: &[Domain]) -> bool
    ensures { IsTrue result ↔ All IsSingle domains.now }
{
    domains.iter().all(|domain| domain.count() == 1)
}

// Whether some domain has no value.
pub fn has_bare(domains: &[Domain]) -> bool
    ensures { IsTrue result ↔ Any IsBare domains.now }
{
    domains.iter().any(|domain| domain.count() == 0)
}
