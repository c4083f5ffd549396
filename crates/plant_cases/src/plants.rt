//! The plant of a case: the one of a file, one that is made, or one that is read of what is printed of it.
ghost use Rattle.std.specs.Prelude.{IfOk};
ghost use Rattle.stn_model.specs.Sound.{Sound};

use crate::answers::answer_step;
use case_tables::{Sheet, Step, Tried};
use plant_make::{make, put_plant};
use plant_text::{PlantFault, PlantStop, read_plant};
use std::alloc::{AllocError, Global};
use stn_model::Plant;

/// Prints what the steps give over the plant of the first one, or the fault of its file.
pub fn answer<'a>(alloc: Global, steps: &'a [Step<'a>], sheet: &mut Sheet<'a>) -> Tried {
    match steps {
        [] => Ok(()),
        [first, rest @ ..] => {
            sheet.begin(first);
            answer_first(alloc, first.verb, rest, sheet)
        }
    }
}

// `plant` over its file, `make SEED CHAINS`, or `again SEED CHAINS`: the plant that is read of what is printed of one that is made.
fn answer_first<'a>(
    alloc: Global,
    verb: &str,
    rest: &'a [Step<'a>],
    sheet: &mut Sheet<'a>,
) -> Tried {
    match verb {
        "plant" => answer_text(alloc, sheet.bytes(), rest, sheet),
        "make" => answer_made(alloc, rest, sheet),
        "again" => {
            let text = made_text(alloc, sheet)?;
            answer_text(alloc, text.as_slice(), rest, sheet)
        }
        _ => sheet.refused(),
    }
}

fn answer_text<'a>(
    alloc: Global,
    text: &[u8],
    rest: &'a [Step<'a>],
    sheet: &mut Sheet<'a>,
) -> Tried {
    match read_plant(alloc, text) {
        Ok(plant) => answer_over(alloc, &plant, rest, sheet),
        Err(PlantStop::Fault(fault)) => {
            put_fault(fault, sheet);
            Ok(())
        }
        Err(PlantStop::Memory) => Err(AllocError),
    }
}

fn answer_made<'a>(alloc: Global, rest: &'a [Step<'a>], sheet: &mut Sheet<'a>) -> Tried {
    let plant = made(alloc, sheet)?;
    answer_over(alloc, &plant, rest, sheet)
}

// The plant of a seed and so many chains, 1 to 8.
fn made(alloc: Global, sheet: &mut Sheet) -> Result<Plant, AllocError>
    ensures { IfOk result Sound }
{
    let seed = sheet.number();
    let chains = sheet.number();
    if 1 <= chains && chains <= 8 {
        make(alloc, seed, chains)
    } else {
        sheet.refuse();
        make(alloc, seed, 1)
    }
}

// What is printed of a plant that is made.
fn made_text(alloc: Global, sheet: &mut Sheet) -> Result<Vec<u8>, AllocError> {
    let plant = made(alloc, sheet)?;
    let mut text = Vec::new(alloc);
    put_plant(alloc, &plant, &mut text)?;
    Ok(text)
}

fn answer_over<'a>(
    alloc: Global,
    plant: &Plant,
    steps: &'a [Step<'a>],
    sheet: &mut Sheet<'a>,
) -> Tried
    requires { Sound plant.now }
{
    for step in steps {
        sheet.begin(step);
        answer_step(alloc, plant, step.verb, sheet)?;
    }
    Ok(())
}

// The kind of a fault, the table, item and inner item, and the key.
fn put_fault(fault: PlantFault, sheet: &mut Sheet) {
    sheet.put("fault ");
    sheet.show(fault.kind);
    sheet.put(" ");
    sheet.put(fault.table.word());
    sheet.put(" ");
    sheet.show(fault.item);
    sheet.put(" ");
    sheet.show(fault.inner);
    sheet.put(" ");
    sheet.line(fault.key.word());
}
