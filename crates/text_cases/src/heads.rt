//! Cases of the heads of logs: what is read of one, and the text of what was read.
ghost use Rattle.std.specs.Prelude.{◌≤◌, IfSome, length};

use case_tables::{Sheet, Step, Tried};
use derivation_lines::{Tail, TailFront, put_derivations, read_derivations};
use log_lines::{Defect, Limits};
use setup_lines::{SetupFront, SetupSize, Setups, put_setups, read_setups};
use std::alloc::{AllocError, Global};
use stn_edge::FixedShelf;
use sum_lines::{Front, Head, put_head, read_head};

/// The most slots of a program.
const MOST_SLOTS: u32 = 4_096;

/// The most rows of a program.
const MOST_ROWS: u32 = 400_000;

/// The most units.
const MOST_UNITS: usize = 65_536;

/// Prints what the steps give.
pub fn answer<'a>(alloc: Global, steps: &'a [Step<'a>], sheet: &mut Sheet<'a>) -> Tried {
    for step in steps {
        sheet.begin(step);
        match step.verb {
            "head" => head(alloc, sheet)?,
            _ => sheet.refuse(),
        }
    }
    Ok(())
}

// `head ROWS SLOTS`, and of each unit the slots and rows of its setup: what stands at the front of the file, over a program with so
// many rows and slots.
fn head(alloc: Global, sheet: &mut Sheet) -> Tried {
    let rows = sheet.number();
    let slots = sheet.number();
    let sizes = sizes_of(alloc, sheet)?;
    if rows > MOST_ROWS || slots > MOST_SLOTS || sizes.len() > MOST_UNITS {
        return sheet.refused();
    }
    let mut shelf = FixedShelf::new(alloc);
    shelf.put_file("log", sheet.bytes())?;
    let limits = Limits {
        rows,
        slots,
        points: slots,
        depth: 0,
    };
    match read_head(alloc, &limits, &mut shelf, "log") {
        Ok(Front::Plain) => sheet.line("no head"),
        Ok(Front::Bad(defect)) => put_defect(defect, sheet),
        Ok(Front::Headed(head)) => {
            if head.version == 4 {
                setups(alloc, &limits, sizes.as_slice(), head, &mut shelf, sheet)?;
            } else {
                put_front(alloc, &head, sheet)?;
            }
        }
        Err(_) => sheet.lacks_memory(),
    }
    Ok(())
}

// The slots and rows of the setup of each unit, which the words that are left say.
fn sizes_of(alloc: Global, sheet: &mut Sheet) -> Result<Vec<SetupSize>, AllocError> {
    let mut sizes = Vec::new(alloc);
    for _ in 0..sheet.words_left() / 2 {
        let slots = sheet.number();
        let rows = sheet.number();
        sizes.push(SetupSize { slots, rows })?;
    }
    Ok(sizes)
}

// What stands behind the sums of a head.
fn setups(
    alloc: Global,
    limits: &Limits,
    sizes: &[SetupSize],
    head: Head,
    shelf: &mut FixedShelf,
    sheet: &mut Sheet,
) -> Tried
    requires rows { limits.now.rows ≤ 400000 }
    requires slots { limits.now.slots ≤ 4096 }
    requires units { length sizes.now ≤ 65536 }
{
    let Some(larger) = with_sums(limits, head.sums.len()) else {
        return sheet.refused();
    };
    match read_setups(alloc, &larger, sizes, head, shelf, "log") {
        Ok(SetupFront::Bad(defect)) => put_defect(defect, sheet),
        Ok(SetupFront::Whole(setups)) => derivations(alloc, &setups, shelf, sheet)?,
        Err(_) => sheet.lacks_memory(),
    }
    Ok(())
}

// What stands behind setups.
fn derivations(alloc: Global, setups: &Setups, shelf: &mut FixedShelf, sheet: &mut Sheet) -> Tried {
    if setups.limits.rows > MOST_ROWS {
        return sheet.refused();
    }
    match read_derivations(alloc, &setups.limits, &setups.head, shelf, "log") {
        Ok(TailFront::Bad(defect)) => put_defect(defect, sheet),
        Ok(TailFront::Whole(tail)) => put_whole(alloc, setups, &tail, sheet)?,
        Err(_) => sheet.lacks_memory(),
    }
    Ok(())
}

// The limits of a program with so many sums, or None where there would be too many rows.
fn with_sums(limits: &Limits, sums: usize) -> Option<Limits>
    requires rows { limits.now.rows ≤ 400000 }
    requires slots { limits.now.slots ≤ 4096 }
    ensures { IfSome result (λ larger. larger.rows ≤ 400000) }
{
    if sums > MOST_SLOTS as usize {
        return None;
    }
    let sums = sums as u32;
    let rows = limits.rows + 2 * sums;
    if rows > MOST_ROWS {
        return None;
    }
    Some(Limits {
        rows,
        slots: limits.slots + sums,
        points: limits.points.saturating_add(sums),
        depth: limits.depth,
    })
}

// Prints a defect.
fn put_defect(defect: Defect, sheet: &mut Sheet) {
    sheet.put("no ");
    sheet.show(defect.line);
    sheet.put(" ");
    sheet.show(defect.kind);
    sheet.line("");
}

// Prints how many lines and bytes a head has, and its text.
fn put_front(alloc: Global, head: &Head, sheet: &mut Sheet) -> Tried {
    put_counts(head.count, head.bytes, &[], sheet);
    let mut text = Vec::new(alloc);
    put_head(alloc, head.version, head.sums.as_slice(), &mut text)?;
    sheet.put_lines(text.as_slice());
    Ok(())
}

// The same of a head, its setups and its derivations, with the lines on which these begin.
fn put_whole(alloc: Global, setups: &Setups, tail: &Tail, sheet: &mut Sheet) -> Tried {
    put_counts(tail.count, tail.bytes, tail.lines.as_slice(), sheet);
    let mut text = Vec::new(alloc);
    put_head(
        alloc,
        setups.head.version,
        setups.head.sums.as_slice(),
        &mut text,
    )?;
    put_setups(alloc, setups.units.as_slice(), &mut text)?;
    put_derivations(alloc, tail.derivations.as_slice(), &mut text)?;
    sheet.put_lines(text.as_slice());
    Ok(())
}

// Prints so many lines and bytes, and the numbers of lines.
fn put_counts(count: u64, bytes: u64, lines: &[u64], sheet: &mut Sheet) {
    sheet.show(count);
    sheet.put(" ");
    sheet.show(bytes);
    put_numbers(lines, sheet);
    sheet.line("");
}

// Prints numbers, each after a blank.
fn put_numbers(numbers: &[u64], sheet: &mut Sheet) {
    for number in numbers {
        sheet.put(" ");
        sheet.show(*number);
    }
}
