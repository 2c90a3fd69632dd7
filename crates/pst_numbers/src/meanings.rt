//! What the names of a list mean, as numbers.
ghost use Rattle.std.specs.Prelude.{◌≡◌, List, IfOk};
ghost use Rattle.pst_ast.specs.declared.scope_declaration.Declaration.{Declaration};
ghost use Rattle.pst_ast.specs.Scopes.{entries as entries_in};
ghost use Rattle.pst_numbers.specs.Meanings.{AreMeanings, meaning_of as meaning_in, meanings_of as meanings_in};
ghost use Rattle.pst_numbers.specs.Numbered.{AreNumbers};

use crate::in_order::in_order;
use crate::listed::entries;
use crate::numbering::Numbers;
use pst_ast::{Meant, NameMeaning, Scopes};
use pst_base::{Items, NoMemory};
use pst_index::Index;
use std::alloc::Global;

// What a name means; none where what it stands for has no numbers.
fn meaning_of(numbers: &Numbers, name: &Meant) -> Option<NameMeaning>
    ensures { (ds : List Declaration) → AreNumbers ds numbers.now → result ≡ meaning_in ds name.now }
{
    let (target, member) = numbers.of(&name.referent)?;
    Some(NameMeaning {
        at: name.name.place,
        target,
        member,
    })
}

// What each name of a list means.
fn meanings_of(
    alloc: Global,
    numbers: &Numbers,
    meant: &[Meant],
) -> Result<Vec<NameMeaning>, NoMemory>
    ensures { IfOk result (λ found. (ds : List Declaration) → AreNumbers ds numbers.now → found.items ≡ meanings_in ds meant.now) }
{
    let mut found = Vec::new(alloc);
    for name in meant {
        if let Some(meaning) = meaning_of(numbers, name) {
            found.push(meaning)?;
        }
    }
    Ok(found)
}

/// The types and functions of the sources, and what the names of a list mean.
///
/// The types and functions stand in order of declaration. What names mean is told by numbers
/// (`NameMeaning`): each meaning once, in order of place. A name of which what it stands for has no
/// numbers has no meaning.
///
/// `NoMemory` comes where memory runs out, where there are 2^32 types and functions or as many names
/// in the text of one, and where names at one place have different meanings: there are no scopes in
/// order of place then. Sources whose tokens stand at rising places have no such names.
pub fn scopes(alloc: Global, index: &Index, meant: &[Meant]) -> Result<Scopes, NoMemory>
    ensures types { IfOk result (λ s. s.types ≡ entries_in index.now) }
    ensures meanings { IfOk result (λ s. AreMeanings index.now meant.now s.meanings) }
{
    let types = entries(alloc, index)?;
    let numbers = Numbers::new(alloc, index.as_slice(), types.as_slice())?;
    let meanings = meanings_of(alloc, &numbers, meant)?;
    let meanings = in_order(alloc, meanings)?;
    Ok(Scopes {
        types: Items::from_vec(types),
        meanings: Items::from_vec(meanings),
    })
}
