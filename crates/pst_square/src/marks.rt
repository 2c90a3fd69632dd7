//! Sets of numbers, with a bit for each.
ghost use Rattle.std.specs.Prelude.{◌≡◌, ◌↔◌, ◌⊎◌, ◌<◌, ◌/◌, ℕ, length, IfOk};
ghost use Rattle.pst_scen.specs.Rows.{row_words};
ghost use Rattle.pst_square.specs.Marks.{IsMarked};

use crate::walk::with_bit;
use pst_base::NoMemory;
use std::alloc::Global;

/// A set without a number, with room for those below the size.
pub fn no_marks(alloc: Global, size: u32) -> Result<Vec<u64>, NoMemory>
    ensures { IfOk result (λ marks. (length marks.items ≡ row_words size) × ((d : ℕ) → IsMarked marks.items d → ⊥)) }
{
    let marks = Vec::from_elem(alloc, 0, (size as usize + 63) / 64)?;
    Ok(marks)
}

/// Adds the number to the set.
pub fn mark(marks: &mut [u64], b: u32)
    requires { b / 64 < length marks.old }
    ensures many { length marks.new ≡ length marks.old }
    ensures marks { (d : ℕ) → IsMarked marks.new d ↔ IsMarked marks.old d ⊎ (d ≡ b) }
{
    let w = b as usize / 64;
    marks[w] = with_bit(marks[w], b as usize % 64);
}
