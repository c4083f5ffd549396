//! Certificates over an area: totals and caps, and certificates that are made better or found.
ghost use Rattle.std.specs.Prelude.{◌≡◌, length};
ghost use Rattle.row_kit.specs.Area.{present};

use crate::certs::cert_of;
use case_programs::put_cap;
use case_tables::{Sheet, Tried};
use dual_bound::{Cert, MOST_MULTS, cap, total};
use dual_climb::{climb, polish};
use dual_simplex::solve_dual;
use proof_tree::Capped;
use row_kit::{Area, Program};
use std::alloc::{AllocError, Global};

/// Prints what a step on certificates gives.
pub fn answer(
    alloc: Global,
    program: &Program,
    area: &Area,
    verb: &str,
    sheet: &mut Sheet,
) -> Tried {
    if area.slot_count() as usize != program.root.len() {
        return sheet.refused();
    }
    match verb {
        "total" => put_total(alloc, program, area, sheet),
        "cap" => put_given(alloc, program, area, sheet),
        "polish" => put_polished(alloc, program, area, sheet),
        "climb" => put_climbed(alloc, program, area, sheet),
        "simplex" => put_solved(alloc, program, area, sheet),
        _ => sheet.refused(),
    }
}

// `total CERTIFICATE`: its total over the area, or none.
fn put_total(alloc: Global, program: &Program, area: &Area, sheet: &mut Sheet) -> Tried
    requires { length (present area.now) ≡ length program.now.root }
{
    let cert = cert_of(alloc, sheet)?;
    sheet.show_line(total(program, area, &cert));
    Ok(())
}

// `cap CERTIFICATE`: the cap that it gives for the area.
fn put_given(alloc: Global, program: &Program, area: &Area, sheet: &mut Sheet) -> Tried
    requires { length (present area.now) ≡ length program.now.root }
{
    let cert = cert_of(alloc, sheet)?;
    put_cap(cap(program, area, &cert), sheet);
    Ok(())
}

// `polish STOP CERTIFICATE`: the cap of the certificate once it is polished, until its cap is at most STOP where that is a number.
fn put_polished(alloc: Global, program: &Program, area: &Area, sheet: &mut Sheet) -> Tried
    requires { length (present area.now) ≡ length program.now.root }
{
    let stop = aim_of(sheet);
    let mut cert = cert_of(alloc, sheet)?;
    let cap = polished(alloc, program, area, &mut cert, stop)?;
    put_cap(cap, sheet);
    Ok(())
}

/// The number that the next word is, or nothing where it is `-`.
pub fn aim_of(sheet: &mut Sheet) -> Option<i128> {
    match sheet.word() {
        "-" => None,
        word => Some(sheet.read(word)),
    }
}

// The cap of a certificate once it is polished; none where it has no total.
fn polished(
    alloc: Global,
    program: &Program,
    area: &Area,
    cert: &mut Cert,
    stop: Option<i128>,
) -> Result<Capped, AllocError>
    requires { length (present area.now) ≡ length program.now.root }
{
    if cert.scale == 0 || program.rows.len() > MOST_MULTS || total(program, area, cert).is_none() {
        return Ok(Capped::Bad);
    }
    polish(alloc, program, area, cert, stop)?;
    Ok(cap(program, area, cert))
}

// `climb LEAST MOST CERTIFICATE`: whether the cap of what a climb from the certificate gives lies between the two, or the cap.
fn put_climbed(alloc: Global, program: &Program, area: &Area, sheet: &mut Sheet) -> Tried
    requires { length (present area.now) ≡ length program.now.root }
{
    let least: i128 = sheet.number();
    let most: i128 = sheet.number();
    let cert = cert_of(alloc, sheet)?;
    match climbed(alloc, program, area, &cert)? {
        Capped::AtMost(cap) if least <= cap && cap <= most => put_between(least, most, sheet),
        other => put_cap(other, sheet),
    }
    Ok(())
}

fn put_between(least: i128, most: i128, sheet: &mut Sheet) {
    sheet.put("between ");
    sheet.show(least);
    sheet.put(" and ");
    sheet.show(most);
    sheet.line("");
}

// The cap of what a climb from a certificate gives; none where it has no total.
fn climbed(alloc: Global, program: &Program, area: &Area, cert: &Cert) -> Result<Capped, AllocError>
    requires { length (present area.now) ≡ length program.now.root }
{
    if program.rows.len() > MOST_MULTS || total(program, area, cert).is_none() {
        return Ok(Capped::Bad);
    }
    let better = climb(alloc, program, area, cert)?;
    Ok(cap(program, area, &better))
}

// `simplex`: the cap of the certificate that the dual simplex gives for the area.
fn put_solved(alloc: Global, program: &Program, area: &Area, sheet: &mut Sheet) -> Tried
    requires { length (present area.now) ≡ length program.now.root }
{
    if area.has_empty() {
        return sheet.refused();
    }
    let cert = solve_dual(alloc, program, area)?;
    put_cap(cap(program, area, &cert), sheet);
    Ok(())
}
