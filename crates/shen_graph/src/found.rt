ghost use Rattle.std.specs.Prelude.{ℕ, ◌≡◌, length, map, None, OnOk, slice_index_or};
ghost use Rattle.shen_graph.specs.Step.{name_in};
ghost use Rattle.shen_graph.specs.Found.{with_name, with_names};

use crate::NoMemory;
use crate::name::Name;
use crate::pin::Pinned;

// The name of what a pin slot holds.
pub(crate) fn name_in(slot: Option<Pinned>) -> Option<Name>
    ensures { result ≡ name_in slot }
{
    match slot {
        Some(held) => Some(held.name),
        None => None,
    }
}

// The names of what the pin slots of a thread hold.
pub(crate) fn names_in(slots: [Option<Pinned>; 4]) -> [Option<Name>; 4]
    requires { length slots ≡ 4 }
    ensures { (slot : ℕ) → slice_index_or result slot None ≡ name_in (slice_index_or slots slot None) }
{
    let [one, two, three, four] = slots;
    [name_in(one), name_in(two), name_in(three), name_in(four)]
}

// Adds the name that a reference holds, if it is not there yet.
fn add_name(found: &mut Vec<Name>, reference: Option<Name>) -> Result<(), NoMemory>
    ensures { OnOk result (found.new.items ≡ with_name found.old.items reference) }
{
    if let Some(name) = reference {
        if !found.contains(&name) {
            found.push(name)?;
        }
    }
    Ok(())
}

pub(crate) fn add_names(found: &mut Vec<Name>, references: &[Option<Name>]) -> Result<(), NoMemory>
    ensures { OnOk result (found.new.items ≡ with_names found.old.items references.now) }
{
    for reference in references {
        add_name(found, *reference)?;
    }
    Ok(())
}

// Adds the names of what pin slots hold.
pub(crate) fn add_pinned(found: &mut Vec<Name>, slots: &[Option<Pinned>]) -> Result<(), NoMemory>
    ensures { OnOk result (found.new.items ≡ with_names found.old.items (map name_in slots.now)) }
{
    for slot in slots {
        add_name(found, name_in(*slot))?;
    }
    Ok(())
}
