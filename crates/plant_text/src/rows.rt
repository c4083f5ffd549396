//! Reading the items of an array, one after the other.
ghost use Rattle.std.specs.Prelude.{◌≡◌, ℕ, ◌<◌, ◌≤◌, List as Items, [], length, map, IfOk};
ghost use Rattle.toml.specs.Data.{Data};
ghost use Rattle.toml.specs.View.{view};
ghost use Rattle.plant_text.specs.declared.scope.Owner.{Owner};
ghost use Rattle.plant_text.specs.Scope.{Scope, scope_of};
ghost use Rattle.plant_text.specs.Tests.{Test, Gives, rows_tests};

use crate::fault::PlantStop;
use crate::scope::{Context, Owner};
use std::alloc::Global;
use stn_model::List;
use toml::Value;

/// What an item of an array is read as.
pub trait Row: Drop + Sized {
    // The tests of an item, after the items before it, and the value where none of them holds.
    ghost tests: { Scope → Owner → Items Self → Data → Items Test };

    ghost made: { Scope → Owner → Data → Self };

    /// Reads an item, after the items before it.
    fn read(
        alloc: Global,
        context: &Context,
        owner: Owner,
        earlier: &[Self],
        value: &Value,
    ) -> Result<Self, PlantStop>
        requires few { length earlier.now < 4096 }
        requires horizon { context.now.periods ≤ 336 }
        ensures { Gives result (tests (scope_of context.now) owner earlier.now (view value.now))
            (made (scope_of context.now) owner (view value.now)) };
}

/// Reads the items of an array in their order.
pub fn read_rows<R: Row>(
    alloc: Global,
    context: &Context,
    owner: Owner,
    items: &[Value],
) -> Result<List<R>, PlantStop>
    requires few { length items.now ≤ 4096 }
    requires horizon { context.now.periods ≤ 336 }
    ensures gives { Gives result (rows_tests (R.tests (scope_of context.now) owner)
        (R.made (scope_of context.now) owner) [] (map view items.now))
        (map (R.made (scope_of context.now) owner) (map view items.now)) }
    ensures many { IfOk result (λ rows. length rows ≡ length items.now) }
{
    let mut rows = List::new(alloc);
    for item in items {
        let row = R::read(alloc, context, owner, rows.as_slice(), item)?;
        rows.push(row)?;
    }
    Ok(rows)
}
