//! Planning over the own program of a part of a plant's choices, without a head.
ghost use Rattle.std.specs.Prelude.{◌≡◌, ◌≤◌, ℕ, false, List, ◌∷◌, [], length, None, Err, IsTrue, IfOk, OnErr};
ghost use Rattle.stn_edge.specs.Count.{Rose};
ghost use Rattle.store_frames.specs.Frames.{WritesOne};
ghost use Rattle.stn_model.specs.Sound.{Sound};
ghost use Rattle.proof_tree.specs.Tree.{tree_of};
ghost use Rattle.row_kit.specs.declared.domain.Domain.{Domain};
ghost use Rattle.row_set.specs.Parts.{IsPartOf};
ghost use Rattle.sum_choice.specs.Headed.{is_headed};
ghost use Rattle.log_lines.specs.declared.line.Line.{Line};
ghost use Rattle.proof_log.specs.Log.{lines_text};
ghost use Rattle.plan_told.specs.Outcomes.{IsPartOutcome};
ghost use Rattle.stn_solve.specs.Begun.{EarnsPoint};
ghost use Rattle.plan_told.specs.Proofs.{HasProof, LeavesSomeBegun, IsProofOf, bytes_in, claim_of};

use crate::solved::Solved;
use box_advice::Advisers;
use branch_tree::{Ended, Searched};
use log_lines::{Line, put_line};
use logged_search::{Logged, SearchRequest, SplitRules, search_built, search_logged, search_only};
use plan_told::{Told, told_of};
use row_relax::Rows;
use std::alloc::{AllocError, Global};
use stn_edge::{Shelf, Stop};
use stn_model::{Outcome, Plant, depth_limit};

// Plans over the rows of a part's own program, by which points are judged, with at most so many boxes.
pub fn plan_plain<A: Advisers>(
    alloc: Global,
    plant: &Plant,
    rows: &Rows,
    budget: u32,
    start: &[u8],
) -> Result<Outcome, AllocError>
    requires sound { Sound plant.now }
    requires part { IsPartOf plant.now rows.now.program }
    requires plain { rows.now.choices ≡ None }
    requires budget { (1 ≤ budget) × (budget ≤ 100000) }
    ensures outcome { IfOk result (IsPartOutcome plant.now rows.now.program budget) }
    ensures proof { (judged : List Domain) (levels : ℕ) → is_headed rows.now.program levels ≡ false
        → IfOk result (HasProof plant.now rows.now.program judged levels None) }
    ensures begun { IfOk result
        (λ outcome. EarnsPoint rows.now.program start.now outcome.answer) }
{
    let rules = SplitRules {
        given: slot_count(rows),
        floors: false,
        most: depth_limit(plant),
    };
    let ended = search_only::<A>(alloc, rows, rules, budget, start)?;
    let Told { outcome, .. } = told_of(alloc, plant, ended)?;
    Ok(outcome)
}

/// Plans over a part of a plant's choices, with at most so many boxes, and keeps the proof. Its log declares nothing.
pub fn solve_rows<A: Advisers>(
    alloc: Global,
    plant: &Plant,
    rows: &Rows,
    budget: u32,
) -> Result<Solved, AllocError>
    requires sound { Sound plant.now }
    requires part { IsPartOf plant.now rows.now.program }
    requires plain { rows.now.choices ≡ None }
    requires budget { (1 ≤ budget) × (budget ≤ 100000) }
    ensures outcome { IfOk result
        (λ solved. IsPartOutcome plant.now rows.now.program budget solved.outcome) }
    ensures proof { IfOk result
        (λ solved. IsProofOf plant.now rows.now.program solved.outcome (tree_of solved.tree)) }
    ensures claim { IfOk result
        (λ solved. solved.claim ≡ claim_of plant.now solved.outcome.answer) }
{
    let rules = SplitRules {
        given: slot_count(rows),
        floors: false,
        most: depth_limit(plant),
    };
    let Searched {
        tree,
        best,
        cap,
        spent,
        left_open,
    } = search_built::<A>(alloc, rows, rules, budget)?;
    let ended = Ended {
        best,
        cap,
        spent,
        left_open,
    };
    let Told { outcome, claim } = told_of(alloc, plant, ended)?;
    Ok(Solved {
        outcome,
        tree,
        claim,
    })
}

// Plans over the rows of a part's own program, and writes the log of the proof, of version 2.
pub fn solve_plain_to<A: Advisers, F: Shelf>(
    alloc: Global,
    plant: &Plant,
    rows: &Rows,
    budget: u32,
    start: &[u8],
    files: &mut F,
    name: &str,
) -> Result<Outcome, Stop>
    requires sound { Sound plant.now }
    requires part { IsPartOf plant.now rows.now.program }
    requires plain { rows.now.choices ≡ None }
    requires budget { (1 ≤ budget) × (budget ≤ 100000) }
    requires allowed { IsTrue (F.may_write files.old name.now) }
    ensures outcome { IfOk result (IsPartOutcome plant.now rows.now.program budget) }
    ensures proof { (judged : List Domain) (levels : ℕ) → is_headed rows.now.program levels ≡ false
        → IfOk result (HasProof plant.now rows.now.program judged levels
        (bytes_in name.now (F.files files.new))) }
    ensures begun { IfOk result
        (λ outcome. EarnsPoint rows.now.program start.now outcome.answer) }
    ensures err { (judged : List Domain) (levels : ℕ) → is_headed rows.now.program levels ≡ false
        → OnErr result (LeavesSomeBegun plant.now rows.now.program judged levels name.now
        (F.files files.old) (F.files files.new)) }
    ensures frame { WritesOne F.Shelf name.now files.old files.new }
    ensures failed { result ≡ Err Stop.Failed
        → Rose (F.write_faults files.old) (F.write_faults files.new) }
{
    let head = plain_head(alloc)?;
    let given = slot_count(rows);
    let rules = SplitRules {
        given,
        floors: false,
        most: depth_limit(plant),
    };
    let sought = SearchRequest {
        rows,
        rules,
        budget,
        start,
    };
    let Logged { ended, writer } = search_logged::<A, _>(
        alloc,
        &sought,
        head.as_slice(),
        files,
        name,
    )?;
    let told = told_of(alloc, plant, ended)?;
    writer.finish(files, &told.claim)?;
    Ok(told.outcome)
}

// The first line of a log of version 2.
fn plain_head(alloc: Global) -> Result<Vec<u8>, AllocError>
    ensures { IfOk result (λ head. head.items ≡ lines_text (Line.Header 2 ∷ [])) }
{
    let mut head = Vec::new(alloc);
    put_line(alloc, &Line::Header { version: 2 }, &mut head)?;
    Ok(head)
}

// The number of slots, where none is a sum's.
fn slot_count(rows: &Rows) -> u32
    ensures { result ≡ length rows.now.program.root }
{
    rows.program.root.len() as u32
}
