// Places of the spans that variables were given.
ghost use Rattle.std.specs.Prelude.{◌≡◌, true, ◌∷◌, [], Contains, OnOk};
ghost use Rattle.pst_fitting.specs.Places.{AreAdded};

use pst_base::NoMemory;

// Whether a place is one of them.
fn is_named(places: &[u32], place: u32) -> bool
    ensures { result ≡ true → Contains places.now place }
{
    for other in places {
        if *other == place {
            return true;
        }
    }
    false
}

// Adds a place where it is below a number.
fn add_place(place: u32, below: usize, reasons: &mut Vec<u32>) -> Result<(), NoMemory>
    ensures { OnOk result (AreAdded (place ∷ []) below reasons.old.items reasons.new.items) }
{
    if place as usize >= below {
        return Ok(());
    }
    if is_named(reasons.as_slice(), place) {
        return Ok(());
    }
    reasons.push(place)?;
    Ok(())
}

/// Adds those of the places that are below a number.
pub fn add_places(places: &[u32], below: usize, reasons: &mut Vec<u32>) -> Result<(), NoMemory>
    ensures { OnOk result (AreAdded places.now below reasons.old.items reasons.new.items) }
{
    for place in places {
        add_place(*place, below, reasons)?;
    }
    Ok(())
}
