//! Parts of declarations on the heap.
ghost use Rattle.pst_ast.specs.declared.fault.SyntaxFault.TheVariants.{NoMemory};
ghost use Rattle.std.specs.Prelude.{◌≡◌, ◌⊎◌, IfOk, IfErr, Ok, Err};

use pst_ast::SyntaxFault;
use pst_reading::boxed;
use std::alloc::Global;

/// A part that was read, on the heap, and the place behind it.
pub fn boxed_part<T: Drop>(
    alloc: Global,
    read: Result<(T, usize), SyntaxFault>,
) -> Result<(Box<T>, usize), SyntaxFault>
    ensures ok { IfOk result (λ part. read ≡ Ok (part.0.value, part.1)) }
    ensures err { IfErr result (λ fault. (fault ≡ NoMemory) ⊎ (read ≡ Err fault)) }
{
    match read {
        Ok((part, after)) => Ok((boxed(alloc, part)?, after)),
        Err(fault) => Err(fault),
    }
}
