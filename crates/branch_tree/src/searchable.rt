//! Whether a program can be searched.
ghost use Rattle.std.specs.Prelude.{◌≡◌, ◌+◌, ◌≤◌, ◌↔◌, length, None, IsTrue};
ghost use Rattle.std.specs.List.{All, sum_by};
ghost use Rattle.row_kit.specs.Domain.{IsOpen};
ghost use Rattle.branch_tree.specs.Searched.{AreSearchable, IsSearchable, spared};
ghost use Rattle.branch_tree.specs.Splits.{splits_of};

use crate::picking::splits_of;
use row_kit::{Domain, Program};
use row_relax::Rows;

/// Whether a program can be searched where at most so many splits may stand one below another: whether each slot of its root has a
/// value, and all of them can be split no more often, as slots always can of which there are a ninth as many. It costs the slots.
pub fn is_searchable(program: &Program, most: u32) -> bool
    ensures { IsTrue result ↔ IsSearchable most program.now }
{
    let slots = program.root.as_slice();
    are_open(slots) && all_splits(slots) <= most
}

/// Whether rows whose points are judged by their own program can be searched where at most so many splits may stand one below
/// another. It costs the slots.
pub fn are_plain_searchable(rows: &Rows, most: u32) -> bool
    ensures exact { IsTrue result
        ↔ ((rows.now.choices ≡ None) × IsSearchable most rows.now.program) }
    ensures searchable { IsTrue result → AreSearchable most rows.now }
{
    match &rows.choices {
        None => is_searchable(&rows.program, most),
        Some(_) => false,
    }
}

// Whether each domain has a value.
fn are_open(domains: &[Domain]) -> bool
    ensures { IsTrue result ↔ All IsOpen domains.now }
{
    domains.iter().all(|domain| domain.count() != 0)
}

// How often domains can be split in all, where one that lacks 0 or holds 0 alone counts once more.
fn all_splits(domains: &[Domain]) -> u32
    requires { length domains.now ≤ 4096 }
    ensures { result ≡ sum_by splits_of domains.now + sum_by spared domains.now }
{
    let mut splits = 0;
    for domain in domains {
        splits += splits_of(*domain) + spared(*domain);
    }
    splits
}

// 1 for a domain that lacks 0 or holds 0 alone, which is split once less.
fn spared(domain: Domain) -> u32
    ensures { result ≡ spared domain }
{
    if domain.zero && domain.lo <= domain.hi {
        0
    } else {
        1
    }
}
