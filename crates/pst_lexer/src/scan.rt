//! The state of a lexer, and its way along the text.
ghost use Rattle.std.specs.Prelude.{◌≡◌, ◌≢◌, ◌+◌, ◌-◌, ◌^◌, ◌<◌, ◌≤◌, ◌⊎◌, ◌↔◌, ◌++◌, ◌∷◌, [], true, false, pos, length, take, IsTrue, IfOk, IfErr, OnOk, OnErr, MatchBool};
ghost use Rattle.std.specs.List.{list_all};
ghost use Rattle.pst_token.specs.declared.kind.Kind.TheVariants as kind;
ghost use Rattle.pst_token.specs.Lexemes.{is_word_byte};
ghost use Rattle.pst_token.specs.Tokens.{AreTokens, token_of};
ghost use Rattle.pst_lexer.specs.Fault.{HasFault};
ghost use Rattle.pst_lexer.specs.Lexing.{OnlyAdds, IsTaken};
ghost use Rattle.pst_lexer.specs.Numbering.{StayNumbered};
ghost use Rattle.pst_lexer.specs.Scanning.{rest_of, IsScanning, IsSmall, Keeps, Stays, Passes, Adds, IsRefused, HasName, IsCertain};

use crate::LexFault;
use crate::find::{Found, find};
use crate::place::place_behind;
use crate::words::ascii;
use pst_base::{NameId, Names, Place};
use pst_token::{Kind, Token};
use std::alloc::Global;

// A text so far, and what was found in it.
#[derive(Drop)]
pub(crate) struct Scanner {
    pub file: u32,
    pub room: u32,
    // The bytes of the text so far.
    pub taken: Vec<u8>,
    // The tokens of the bytes before `start`.
    pub tokens: Vec<Token>,
    // Where the part begins that isn't finished.
    pub start: usize,
    // How many bytes from there on need not be looked at again.
    pub seen: usize,
    // The place of `start`.
    pub place: Place,
}

impl Scanner {
    pub fn new(alloc: Global, file: u32, room: u32) -> Self
        requires { room ≤ 2 ^ 20 }
        ensures file { result.file ≡ file }
        ensures room { result.room ≡ room }
        ensures taken { result.taken.items ≡ [] }
        ensures tokens { result.tokens.items ≡ [] }
        ensures scanning { IsScanning false [] result }
    {
        Scanner {
            file,
            room,
            taken: Vec::new(alloc),
            tokens: Vec::new(alloc),
            start: 0,
            seen: 0,
            place: Place {
                file,
                line: 1,
                column: 1,
            },
        }
    }

    // Takes the next bytes of the text.
    pub fn take(&mut self, piece: &[u8], names: &mut Names) -> Result<(), LexFault>
        requires scanning { IsScanning false names.old self.old }
        requires room { self.old.room ≤ 2 ^ 20 }
        requires length { length self.old.taken.items + length piece.now ≤ 2 ^ 31 }
        requires names { length names.old ≤ 2 ^ 31 }
        ensures file { self.new.file ≡ self.old.file }
        ensures room { self.new.room ≡ self.old.room }
        ensures scanning { IsScanning false names.new self.new }
        ensures taken { IsTaken self.old.taken.items piece.now self.new.taken.items result }
        ensures names { OnlyAdds names.old names.new }
        ensures growth { length names.new + length self.old.tokens.items ≤ length names.old + length self.new.tokens.items + 1 }
        ensures numbered { OnOk result (StayNumbered self.old.tokens.items (length names.old) self.new.tokens.items (length names.new)) }
        ensures fault { IfErr result (λ f. f ≢ LexFault.NoMemory → IsCertain false self.new f) }
    {
        self.taken.extend_from_slice(piece)?;
        self.scan(false, names)
    }

    // The tokens of the whole text.
    pub fn finish(self, names: &mut Names) -> Result<Vec<Token>, LexFault>
        requires scanning { IsScanning false names.old self }
        requires small { IsSmall self }
        requires names { length names.old ≤ 2 ^ 31 }
        ensures ok { IfOk result (λ tokens. AreTokens self.file names.new self.taken.items tokens.items × (length tokens.items ≤ self.room + 1)) }
        ensures fault { IfErr result (λ f. f ≢ LexFault.NoMemory → HasFault self.file self.room self.taken.items f) }
        ensures names { OnlyAdds names.old names.new }
        ensures growth { length names.new + length self.tokens.items ≤ length names.old + self.room + 1 }
        ensures numbered { IfOk result (λ tokens. StayNumbered self.tokens.items (length names.old) tokens.items (length names.new)) }
    {
        let mut scanner = self;
        scanner.scan(true, names)?;
        scanner.push(Kind::End, NameId(0), 0)?;
        Ok(scanner.tokens)
    }

    // Goes along the text, up to its end or to a part that depends on what follows.
    pub fn scan(&mut self, is_last: bool, names: &mut Names) -> Result<(), LexFault>
        requires scanning { IsScanning is_last names.old self.old }
        requires small { IsSmall self.old }
        requires names { length names.old ≤ 2 ^ 31 }
        ensures kept { Keeps self.old self.new }
        ensures scanning { IsScanning is_last names.new self.new }
        ensures names { OnlyAdds names.old names.new }
        ensures growth { length names.new + length self.old.tokens.items ≤ length names.old + length self.new.tokens.items + 1 }
        ensures numbered { OnOk result (StayNumbered self.old.tokens.items (length names.old) self.new.tokens.items (length names.new)) }
        ensures fault { IfErr result (λ f. f ≢ LexFault.NoMemory → IsCertain is_last self.new f) }
        ensures done { OnOk result (is_last ≡ true → self.new.start ≡ length self.new.taken.items) }
    {
        while self.start < self.taken.len() {
            if !self.step(is_last, names)? {
                break;
            }
        }
        Ok(())
    }

    // Goes past one part. The answer is false where it depends on what follows.
    fn step(&mut self, is_last: bool, names: &mut Names) -> Result<bool, LexFault>
        requires scanning { IsScanning is_last names.old self.old }
        requires small { IsSmall self.old }
        requires some { self.old.start < length self.old.taken.items }
        requires names { length names.old < 2 ^ 32 - 1 }
        ensures kept { Keeps self.old self.new }
        ensures scanning { IsScanning is_last names.new self.new }
        ensures names { OnlyAdds names.old names.new }
        ensures few { OnOk result (length names.new + length self.old.tokens.items ≤ length names.old + length self.new.tokens.items) }
        ensures growth { length names.new + length self.old.tokens.items ≤ length names.old + length self.new.tokens.items + 1 }
        ensures numbered { OnOk result (StayNumbered self.old.tokens.items (length names.old) self.new.tokens.items (length names.new)) }
        ensures fault { IfErr result (λ f. f ≢ LexFault.NoMemory → IsCertain is_last self.new f) }
        ensures further { IfOk result (λ further. MatchBool further (self.old.start < self.new.start) (is_last ≡ false)) }
    {
        match find(self.rest(), self.seen, is_last) {
            Found::Open { seen } => {
                self.seen = seen;
                Ok(false)
            }
            Found::Nothing => Err(LexFault::Bad(self.place)),
            Found::Wide => Err(LexFault::Wide(self.place)),
            Found::Gap { len } => {
                self.pass(len);
                Ok(true)
            }
            Found::Fixed { kind, len } => self.add(kind, NameId(0), 0, len),
            Found::Number { value, len } => self.add(Kind::Number, NameId(0), value, len),
            Found::Name { len } => self.add_name(len, names),
        }
    }

    // Goes past a name.
    fn add_name(&mut self, len: usize, names: &mut Names) -> Result<bool, LexFault>
        requires within { len ≤ length (rest_of self.old) }
        requires start { self.old.start ≤ length self.old.taken.items }
        requires word { IsTrue (list_all is_word_byte (take len (rest_of self.old))) }
        requires line { self.old.place.line + len < 2 ^ 32 }
        requires column { self.old.place.column + len < 2 ^ 32 }
        requires names { length names.old < 2 ^ 32 - 1 }
        ensures ok { OnOk result ((result ≡ Ok true) × HasName names.new (take len (rest_of self.old)) (λ id. Adds self.old self.new len kind.Name id (pos 0))) }
        ensures err { OnErr result (Stays self.old self.new) }
        ensures fault { IfErr result (IsRefused self.old) }
        ensures names { OnlyAdds names.old names.new }
        ensures one { length names.new ≤ length names.old + 1 }
        ensures numbered { OnOk result (StayNumbered self.old.tokens.items (length names.old) self.new.tokens.items (length names.new)) }
    {
        if self.is_full() {
            return Err(LexFault::Many);
        }
        let name = names.intern(ascii(&self.rest()[..len]))?;
        self.add(Kind::Name, name, 0, len)
    }

    // Goes past a part that gives this token.
    fn add(&mut self, kind: Kind, name: NameId, number: i64, len: usize) -> Result<bool, LexFault>
        requires within { len ≤ length (rest_of self.old) }
        requires start { self.old.start ≤ length self.old.taken.items }
        requires line { self.old.place.line + len < 2 ^ 32 }
        requires column { self.old.place.column + len < 2 ^ 32 }
        ensures ok { OnOk result ((result ≡ Ok true) × Adds self.old self.new len kind name.0 number) }
        ensures err { OnErr result (Stays self.old self.new) }
        ensures fault { IfErr result (IsRefused self.old) }
    {
        if self.is_full() {
            return Err(LexFault::Many);
        }
        self.push(kind, name, number)?;
        self.pass(len);
        Ok(true)
    }

    // The bytes behind the parts that are settled.
    fn rest(&self) -> &[u8]
        requires { self.now.start ≤ length self.now.taken.items }
        ensures { result.now ≡ rest_of self.now }
    {
        &self.taken[self.start..]
    }

    fn is_full(&self) -> bool
        ensures { IsTrue result ↔ (self.now.room ≤ length self.now.tokens.items) }
    {
        self.tokens.len() >= self.room as usize
    }

    fn push(&mut self, kind: Kind, name: NameId, number: i64) -> Result<(), LexFault>
        ensures ok { OnOk result (self.new.tokens.items ≡ self.old.tokens.items ++ token_of kind name.0 number self.old.place ∷ []) }
        ensures err { OnErr result (self.new.tokens.items ≡ self.old.tokens.items) }
        ensures fault { IfErr result (λ f. f ≡ LexFault.NoMemory) }
        ensures same { self.new ≡ record self.old { tokens = self.new.tokens } }
    {
        let place = self.place;
        self.tokens.push(Token {
            kind,
            name,
            number,
            place,
        })?;
        Ok(())
    }

    // Goes past so many bytes.
    fn pass(&mut self, len: usize)
        requires within { len ≤ length (rest_of self.old) }
        requires start { self.old.start ≤ length self.old.taken.items }
        requires line { self.old.place.line + len < 2 ^ 32 }
        requires column { self.old.place.column + len < 2 ^ 32 }
        ensures { Passes self.old self.new len self.old.tokens.items }
    {
        let end = self.start + len;
        self.place = place_behind(self.place, &self.taken[self.start..end]);
        self.start = end;
        self.seen = 0;
    }
}
