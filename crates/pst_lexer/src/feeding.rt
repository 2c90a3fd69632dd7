//! The lexer.
ghost use Rattle.std.specs.Prelude.{ℕ, List, ◌≡◌, ◌≢◌, ◌+◌, ◌^◌, ◌≤◌, ◌⊎◌, ◌++◌, [], length, IfSome, IfOk, IfErr, OnOk};
ghost use Rattle.pst_token.specs.Tokens.{AreTokens};
ghost use Rattle.pst_lexer.specs.declared.fault.LexFault.{LexFault};
ghost use Rattle.pst_lexer.specs.Fault.{HasFault, AlwaysHasFault};
ghost use Rattle.pst_lexer.specs.Lexing.{HasItsTexts, OnlyAdds};
ghost use Rattle.pst_lexer.specs.Numbering.{StayNumbered};

use crate::LexFault;
use crate::scan::Scanner;
use pst_base::Names;
use pst_token::Token;
use std::alloc::Global;
use std::marker::Model;

/// A lexer of one text, which comes in pieces.
///
/// Contracts see the bytes taken, the tokens so far and the fault, once there is one. The tokens so
/// far are those of a front of the bytes, however these go on.
#[derive(Drop)]
pub struct Lexer {
    scanner: Scanner,
    fault: Option<LexFault>,
}

impl Model for Lexer {
    ghost use Rattle.pst_lexer.specs.Lexing.{Lexing};
    ghost use Rattle.pst_lexer.specs.Scanning.{IsLexing};

    ghost Value = { Lexing };

    ghost view = { λ l. record {
      file = l.scanner.file;
      room = l.scanner.room;
      taken = l.scanner.taken.items;
      tokens = l.scanner.tokens.items;
      fault = l.fault;
    } };

    ghost invariant = { λ l. IsLexing l.scanner l.fault };
}

impl Lexer {
    /// Makes a lexer of the text of a file, with room for so many tokens, `End` not counted. It
    /// takes no memory yet.
    pub fn new(alloc: Global, file: u32, room: u32) -> Lexer
        requires { room ≤ 2 ^ 20 }
        ensures empty { result ≡ record { file = file; room = room; taken = []; tokens = []; fault = None } }
        ensures texts { (names : List (List ℕ)) → HasItsTexts names result }
    {
        Lexer {
            scanner: Scanner::new(alloc, file, room),
            fault: None,
        }
    }

    /// Takes the next bytes of the text. A fault comes only where every text that begins with the
    /// bytes taken has it, and stays the answer from then on. At `NoMemory` the names that were
    /// added before stay, and `NoMemory` is the answer from then on.
    pub fn feed(&mut self, piece: &[u8], names: &mut Names) -> Result<(), LexFault>
        requires length { length self.old.taken + length piece.now ≤ 2 ^ 31 }
        requires names { length names.old ≤ 2 ^ 31 }
        requires texts { HasItsTexts names.old self.old }

        ensures file { self.new.file ≡ self.old.file }
        ensures room { self.new.room ≡ self.old.room }
        ensures ok { OnOk result ((self.new.taken ≡ self.old.taken ++ piece.now) × (self.new.fault ≡ None)) }
        ensures taken { (self.new.taken ≡ self.old.taken) ⊎ (self.new.taken ≡ self.old.taken ++ piece.now) }
        ensures fault { IfErr result (λ f. self.new.fault ≡ Some f) }
        ensures certain { IfErr result (λ f. f ≢ LexFault.NoMemory → AlwaysHasFault self.old.file self.old.room (self.old.taken ++ piece.now) f) }
        ensures again { IfSome self.old.fault (λ f. (result ≡ Err f) × (self.new ≡ self.old) × (names.new ≡ names.old)) }
        ensures texts { HasItsTexts names.new self.new }
        ensures few { length self.new.tokens ≤ self.new.room }
        ensures names { OnlyAdds names.old names.new }
        ensures growth { length names.new + length self.old.tokens ≤ length names.old + length self.new.tokens + 1 }
        ensures numbered { OnOk result (StayNumbered self.old.tokens (length names.old) self.new.tokens (length names.new)) }
    {
        if let Some(fault) = self.fault {
            return Err(fault);
        }
        let outcome = self.scanner.take(piece, names);
        if let Err(fault) = outcome {
            self.fault = Some(fault);
        }
        outcome
    }

    /// Gives the tokens of the text, with `End` last, or its fault. At `NoMemory` the names that
    /// were added before stay.
    pub fn finish(self, names: &mut Names) -> Result<Vec<Token>, LexFault>
        requires names { length names.old ≤ 2 ^ 31 }
        requires texts { HasItsTexts names.old self }

        ensures tokens { IfOk result (λ tokens. AreTokens self.file names.new self.taken tokens.items) }
        ensures room { IfOk result (λ tokens. length tokens.items ≤ self.room + 1) }
        ensures fault { IfErr result (λ f. f ≢ LexFault.NoMemory → HasFault self.file self.room self.taken f) }
        ensures exact { (f : LexFault) → HasFault self.file self.room self.taken f → (result ≡ Err f) ⊎ (result ≡ Err LexFault.NoMemory) }
        ensures again { IfSome self.fault (λ f. result ≡ Err f) }
        ensures names { OnlyAdds names.old names.new }
        ensures growth { length names.new + length self.tokens ≤ length names.old + self.room + 1 }
        ensures numbered { IfOk result (λ tokens. StayNumbered self.tokens (length names.old) tokens.items (length names.new)) }
    {
        if let Some(fault) = self.fault {
            return Err(fault);
        }
        self.scanner.finish(names)
    }
}
