//! Who advises a search: as it goes on, or from boxes explored before.
ghost use Rattle.std.specs.Prelude.{◌≡◌, length};
ghost use Rattle.std.specs.List.{All};
ghost use Rattle.row_kit.specs.Area.{present};
ghost use Rattle.row_kit.specs.Domain.{IsOpen};

use crate::explorer::{Explored, explore, explore_on};
use crate::kept_guide::KeptGuide;
use crate::kept_hinter::KeptHinter;
use box_advice::{Advice, Advisers, Asked, Guide, Hinter, Sought};
use derivations::Derivation;
use end_advice::{EndAdvisers, EndGuide, OpenEnd};
use explored_tree::{Lead, Tree};
use plan_hints::PlanHinter;
use plan_repair::Kept;
use row_activity::numbered;
use row_kit::{Area, Domain, List, Program};
use row_separation::{Effort, separate};
use split_advice::{PlainGuide, PlanGuide};
use std::alloc::{AllocError, Global};
use sum_choice::has_many;

/// A guide of a search: one that is asked as the search goes on, one that leads it through boxes explored before, or one that bounds
/// boxes alone.
#[derive(Drop)]
pub enum SearchGuide {
    Depth(PlanGuide),
    Best(KeptGuide),
    Plain(PlainGuide),
}

/// A hinter of a search: one that looks for plans as the search goes on, or one that offers the plan that was found before.
#[derive(Drop)]
pub enum SearchHinter {
    Depth(PlanHinter),
    Best(KeptHinter),
}

/// The advisers of searches: of roots with many points best first, else depth first.
pub struct BestFirst;

// How far rows are derived at the root.
const EFFORT: Effort = Effort {
    rounds: 25,
    work: 40_000_000,
    pivots: 20_000,
};

impl Advisers for BestFirst {
    type Guide = SearchGuide;

    type Hinter = SearchHinter;

    fn derived(
        alloc: Global,
        program: &Program,
        domains: &[Domain],
    ) -> Result<List<Derivation>, AllocError> {
        separate(alloc, program, domains, EFFORT)
    }

    fn advised(
        alloc: Global,
        sought: &Sought,
        budget: u32,
    ) -> Result<(SearchGuide, SearchHinter), AllocError> {
        if has_many(sought.program, 0) {
            return explored(alloc, sought, budget);
        }
        let points = numbered(sought.choices.root.len());
        let guide = PlanGuide::new(alloc, sought.program, sought.given, points)?;
        Ok((SearchGuide::Depth(guide), hinter_of(alloc, sought)?))
    }

    fn hinted(alloc: Global, sought: &Sought) -> Result<(SearchGuide, SearchHinter), AllocError> {
        Ok((SearchGuide::Plain(PlainGuide), hinter_of(alloc, sought)?))
    }
}

// The hinter of a search that looks for plans as it goes on.
fn hinter_of(alloc: Global, sought: &Sought) -> Result<SearchHinter, AllocError> {
    let points = numbered(sought.choices.root.len());
    let hinter = PlanHinter::new(alloc, sought.program, sought.given, points, sought.start)?;
    Ok(SearchHinter::Depth(hinter))
}

// The advisers of a search that is explored first.
fn explored(
    alloc: Global,
    sought: &Sought,
    budget: u32,
) -> Result<(SearchGuide, SearchHinter), AllocError> {
    let Explored { tree, best } = explore(alloc, sought, budget)?;
    let lead = Lead::new(alloc, sought.program, tree.nodes, best.worth, budget)?;
    let guide = kept_guide(alloc, sought, lead)?;
    let hinter = KeptHinter::new(best);
    Ok((SearchGuide::Best(guide), SearchHinter::Best(hinter)))
}

// The guide that leads a search through boxes.
fn kept_guide(alloc: Global, sought: &Sought, lead: Lead) -> Result<KeptGuide, AllocError> {
    let points = numbered(sought.choices.root.len());
    KeptGuide::new(alloc, sought.program, sought.given, points, lead)
}

impl EndAdvisers for BestFirst {
    type Guide = SearchGuide;

    type Hinter = SearchHinter;

    fn resumed(
        alloc: Global,
        sought: &Sought,
        budget: u32,
        ends: Vec<OpenEnd>,
    ) -> Result<(SearchGuide, SearchHinter, Vec<u8>), AllocError> {
        let roots = numbered(ends.len());
        let tree = tree_of(alloc, sought.program, ends)?;
        let Explored { tree, best } = explore_on(alloc, sought, budget, tree)?;
        let lead = Lead::over(alloc, sought.program, tree.nodes, roots, best.worth, budget)?;
        let guide = kept_guide(alloc, sought, lead)?;
        let plan = values_of(alloc, &best)?;
        let hinter = KeptHinter::new(best);
        Ok((SearchGuide::Best(guide), SearchHinter::Best(hinter), plan))
    }

    fn in_order(alloc: Global, sought: &Sought) -> Result<(SearchGuide, SearchHinter), AllocError> {
        <BestFirst as Advisers>::hinted(alloc, sought)
    }
}

// The values of a plan; empty, where none is known.
fn values_of(alloc: Global, best: &Kept) -> Result<Vec<u8>, AllocError> {
    match best.worth {
        Some(_) => Vec::from_slice(alloc, best.values.as_slice()),
        None => Ok(Vec::new(alloc)),
    }
}

// The tree of open ends.
fn tree_of(alloc: Global, program: &Program, ends: Vec<OpenEnd>) -> Result<Tree, AllocError> {
    let mut tree = Tree::empty(alloc, program);
    for end in ends {
        let OpenEnd {
            depth,
            cap,
            domains,
        } = end;
        tree.put_root(depth, cap, domains)?;
    }
    Ok(tree)
}

impl Guide for SearchGuide {
    fn leaves(&mut self, program: &Program, area: &Area, depth: u32) -> bool {
        match self {
            SearchGuide::Depth(guide) => guide.leaves(program, area, depth),
            SearchGuide::Best(guide) => guide.leaves(program, area, depth),
            SearchGuide::Plain(guide) => guide.leaves(program, area, depth),
        }
    }

    fn advise(&mut self, asked: &Asked, point: &mut [u8]) -> Result<Advice, AllocError> {
        match self {
            SearchGuide::Depth(guide) => guide.advise(asked, point),
            SearchGuide::Best(guide) => guide.advise(asked, point),
            SearchGuide::Plain(guide) => guide.advise(asked, point),
        }
    }
}

impl EndGuide for SearchGuide {
    fn enters(&mut self, _program: &Program, number: u32, depth: u32) -> bool {
        match self {
            SearchGuide::Depth(_) => true,
            SearchGuide::Best(guide) => guide.enters(number, depth),
            SearchGuide::Plain(_) => true,
        }
    }
}

impl Hinter for SearchHinter {
    fn offer(&mut self, program: &Program, area: &Area, point: &mut [u8]) -> bool {
        match self {
            SearchHinter::Depth(hinter) => hinter.offer(program, area, point),
            SearchHinter::Best(hinter) => hinter.offer(program, area, point),
        }
    }
}
