// Marks of variables.
ghost use Rattle.std.specs.Prelude.{◌≡◌, ℕ, ◌<◌, ◌≤◌, [], length, true, false, slice_set, OnOk};
ghost use Rattle.pst_reasons.specs.Marks.{marked_in, IsMarked, IsUnmarked};

use pst_base::NoMemory;
use std::alloc::Global;
use std::marker::Model;

/// Variables, by number, some of which are marked. Contracts see for each whether it is.
#[derive(Drop)]
pub(crate) struct Marks {
    flags: Vec<bool>,
    // How many are marked.
    count: usize,
}

impl Model for Marks {
    ghost use Rattle.std.specs.Prelude.{◌≡◌, List, Bool};
    ghost use Rattle.pst_reasons.specs.Marks.{marked_in};

    ghost Value = { List Bool };

    ghost view = { λ m. m.flags.items };

    ghost invariant = { λ m. m.count ≡ marked_in m.flags.items };
}

// Flags of more variables, none of which is marked.
fn add_flags(flags: &mut Vec<bool>, variables: usize) -> Result<(), NoMemory>
    ensures long { OnOk result (variables ≤ length flags.new.items) }
    ensures marked { marked_in flags.new.items ≡ marked_in flags.old.items }
{
    let begun = flags.len();
    for _at in begun..variables {
        flags.push(false)?;
    }
    Ok(())
}

// Whether the flag of a variable is set.
fn is_flagged(flags: &[bool], variable: u32) -> bool
    ensures yes { result ≡ true → IsMarked flags.now variable }
    ensures no { result ≡ false → IsMarked flags.now variable → ⊥ }
{
    match flags.get(variable as usize) {
        Some(flag) => *flag,
        None => false,
    }
}

impl Marks {
    /// No variables. It takes no memory.
    pub(crate) fn new(alloc: Global) -> Marks
        ensures { result ≡ [] }
    {
        Marks {
            flags: Vec::new(alloc),
            count: 0,
        }
    }

    /// Makes room for so many variables.
    pub(crate) fn make_room(&mut self, variables: usize) -> Result<(), NoMemory>
        ensures { OnOk result (variables ≤ length self.new) }
    {
        add_flags(&mut self.flags, variables)
    }

    /// Whether a variable is marked.
    pub(crate) fn has(&self, variable: u32) -> bool
        ensures yes { result ≡ true → IsMarked self.now variable }
        ensures no { result ≡ false → IsMarked self.now variable → ⊥ }
    {
        is_flagged(self.flags.as_slice(), variable)
    }

    /// Marks a variable.
    pub(crate) fn put(&mut self, variable: u32)
        requires { variable < length self.old }
        ensures { self.new ≡ slice_set self.old variable true }
    {
        if self.has(variable) {
            return;
        }
        self.flags[variable as usize] = true;
        self.count += 1;
    }

    /// Takes the mark off a variable.
    pub(crate) fn take(&mut self, variable: u32)
        ensures { IsUnmarked variable self.old self.new }
    {
        if !self.has(variable) {
            return;
        }
        self.flags[variable as usize] = false;
        self.count -= 1;
    }

    /// Whether no variable is marked.
    pub(crate) fn is_empty(&self) -> bool
        ensures { result ≡ true → (v : ℕ) → IsMarked self.now v → ⊥ }
    {
        let count = self.count;
        if count > 0 {
            return false;
        }
        true
    }
}
