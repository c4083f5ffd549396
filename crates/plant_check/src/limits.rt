//! The limits of logs over a program and with a head.
ghost use Rattle.std.specs.Prelude.{◌≡◌, ◌≤◌, length};
ghost use Rattle.stn_model.specs.Points.{depth_limit};
ghost use Rattle.derivations.specs.Growth.{rows_of};
ghost use Rattle.valid_log.specs.Heads.{limits_behind, limits_with};

use derivation_lines::Tail;
use derivations::row_count;
use log_lines::Limits;
use row_kit::Program;
use setup_lines::Setups;
use stn_model::{Plant, depth_limit};

/// The limits of a log behind a head with so many sums.
pub fn limits_with(program: &Program, depth: u32, sums: usize) -> Limits
    requires { sums ≤ 4096 }
    ensures { result ≡ limits_with program.now depth sums }
{
    let slots = program.root.len() as u32 + sums as u32;
    Limits {
        rows: program.rows.len() as u32 + 2 * sums as u32,
        slots,
        points: slots,
        depth,
    }
}

/// The limits of a log of a plant, over a program of it, behind a head with so many sums.
pub fn plant_limits(plant: &Plant, program: &Program, sums: usize) -> Limits
    requires { sums ≤ 4096 }
    ensures { result ≡ limits_with program.now (depth_limit plant.now) sums }
{
    limits_with(program, depth_limit(plant), sums)
}

/// The limits of a log behind a head, its setups and its derivations. It costs the derivations.
pub fn limits_behind(setups: &Setups, tail: &Tail) -> Limits
    requires rows { setups.now.limits.rows ≤ 400000 }
    requires derived { rows_of tail.now.derivations ≤ 400000 }
    ensures { result ≡ limits_behind setups.now tail.now }
{
    let limits = setups.limits;
    Limits {
        rows: limits.rows + row_count(tail.derivations.as_slice()) as u32,
        slots: limits.slots,
        points: limits.points,
        depth: limits.depth,
    }
}
