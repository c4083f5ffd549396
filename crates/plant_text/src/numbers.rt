//! The numbers of names: the place of the first item that declares each.
ghost use Rattle.std.specs.Prelude.{◌≡◌, ◌^◌, ◌<◌, length, map, IfOk, OnOk};
ghost use Rattle.std.specs.HashMap.{get_by_text};
ghost use Rattle.toml.specs.View.{view};
ghost use Rattle.plant_text.specs.Names.{name_in, first_places, places_in, Notes};

use crate::fault::KeyName;
use crate::find::lookup;
use indexmap::IndexMap;
use std::alloc::{AllocError, Global};
use toml::Value;

/// The names that an array declares, numbered from 0 in the order of the file.
#[derive(Drop)]
pub struct Numbers {
    places: IndexMap<String, u32>,
}

fn name_in(value: &Value) -> &str
    ensures { result.now ≡ name_in (view value.now) }
{
    let table = match value.as_table() {
        Some(table) => table,
        None => return "",
    };
    let name = match lookup(table, KeyName::Name) {
        Some(name) => name,
        None => return "",
    };
    match name.as_str() {
        Some(text) => text,
        None => "",
    }
}

fn note(
    alloc: Global,
    places: &mut IndexMap<String, u32>,
    name: &str,
    place: u32,
) -> Result<(), AllocError>
    ensures { OnOk result (Notes (get_by_text places.old) name.now place (get_by_text places.new)) }
{
    if places.get(name).is_none() {
        places.insert(String::from_str(alloc, name)?, place)?;
    }
    Ok(())
}

impl Numbers {
    /// Numbers the names of the items.
    pub fn of(alloc: Global, items: &[Value]) -> Result<Numbers, AllocError>
        requires { length items.now < 2 ^ 32 }
        ensures { IfOk result (λ n. places_in n ≡ first_places (map name_in (map view items.now))) }
    {
        let mut places = IndexMap::new(alloc);
        for (place, item) in items.iter().enumerate() {
            note(alloc, &mut places, name_in(item), place as u32)?;
        }
        Ok(Numbers { places })
    }

    /// The number of a name.
    pub fn place_of(&self, name: &str) -> Option<u32>
        ensures { result ≡ places_in self.now name.now }
    {
        self.places.get(name).copied()
    }
}
