//! Rows made by several threads.
ghost use Rattle.std.specs.Prelude.{ℕ, ◌<◌, map, IfOk, Ok};
ghost use Rattle.std.specs.List.{AllZip, range_with_len};

use pst_base::NoMemory;
use pst_sweep_table::SweepRow;
use rayon::prelude::*;
use std::alloc::Global;
use std::thread::Threads;

/// The rows that the search gives at the numbers below `count`, in their order. Each number is a piece
/// of its own for the threads.
pub(crate) fn each_row<F: Fn(u32) -> Result<SweepRow, NoMemory> + Copy + Send + Sync>(
    rt: &(impl Threads + Sync),
    alloc: Global,
    count: u32,
    search: F,
) -> Result<Vec<SweepRow>, NoMemory>
    requires callable { (k : ℕ) → k < count → F.pre search k }
    ensures { IfOk result (λ rows. AllZip (F.post search) (range_with_len 0 count) (map Ok rows.items)) }
{
    let rows: Result<Vec<SweepRow>, NoMemory> = (0..count)
        .into_par_iter()
        .with_min_len(1)
        .map(search)
        .collect(rt, alloc)?;
    rows
}
