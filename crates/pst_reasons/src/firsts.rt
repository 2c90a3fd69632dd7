// Where variables were changed first along a trail.
ghost use Rattle.std.specs.Prelude.{◌≡◌, ◌≤◌, get_or};
ghost use Rattle.pst_reasons.specs.Firsts.{first_at, AreNoLater, AreNoted, AreForgotten};

use pst_narrow::Former;

/// The place of the trail at which a variable was changed first; a great number where it wasn't changed.
pub(crate) fn first_at(firsts: &[usize], variable: u32) -> usize
    ensures { result ≡ first_at firsts.now variable }
{
    match firsts.get(variable as usize) {
        Some(first) => *first,
        None => 0,
    }
}

// Notes that a variable was changed at a place.
fn note_change(firsts: &mut Vec<usize>, variable: u32, at: usize)
    ensures no_later { AreNoLater firsts.old.items firsts.new.items }
    ensures noted { first_at firsts.new.items variable ≤ at }
{
    let first = first_at(firsts.as_slice(), variable);
    if first <= at {
        return;
    }
    firsts[variable as usize] = at;
}

/// Notes the changes of a trail from a mark on.
pub(crate) fn note_changes(firsts: &mut Vec<usize>, formers: &[Former], mark: usize)
    ensures { AreNoted formers.now mark firsts.old.items firsts.new.items }
{
    for at in mark..formers.len() {
        note_change(firsts, formers[at].variable, at);
    }
}

// Forgets the first change of a variable, where it isn't before the mark.
fn forget_change(firsts: &mut Vec<usize>, variable: u32, mark: usize)
    ensures { AreForgotten mark firsts.old.items firsts.new.items }
{
    let first = first_at(firsts.as_slice(), variable);
    if first < mark {
        return;
    }
    let number = variable as usize;
    if number >= firsts.len() {
        return;
    }
    firsts[number] = usize::MAX;
}

/// Forgets the changes of a trail from a mark on, as they are taken back.
pub(crate) fn forget_changes(firsts: &mut Vec<usize>, formers: &[Former], mark: usize)
    ensures { AreForgotten mark firsts.old.items firsts.new.items }
{
    for at in mark..formers.len() {
        forget_change(firsts, formers[at].variable, mark);
    }
}
