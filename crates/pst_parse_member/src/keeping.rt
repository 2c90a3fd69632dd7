//! A value that is kept while what stands behind it is read.
ghost use Rattle.std.specs.Prelude.{◌≡◌, IfOk, IfErr, Ok, Err};

use pst_ast::SyntaxFault;

/// A value, and what was read behind it. Where that failed the value is let go here, so a caller
/// that returns the fault has nothing left to let go.
pub fn both<A: Drop, B: Drop>(value: A, next: Result<B, SyntaxFault>) -> Result<(A, B), SyntaxFault>
    ensures ok { IfOk result (λ pair. (pair.0 ≡ value) × (next ≡ Ok pair.1)) }
    ensures err { IfErr result (λ fault. next ≡ Err fault) }
{
    match next {
        Ok(read) => Ok((value, read)),
        Err(fault) => Err(fault),
    }
}
