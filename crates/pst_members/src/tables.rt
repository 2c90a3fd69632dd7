//! Tables of the members of actions with their bases'.
ghost use Rattle.std.specs.Prelude.{◌≡◌, ◌+◌, ◌<◌, length, suc, List, IfOk, IfSome, OnOk, OnErr, Option, Some, if◌then◌else◌};
ghost use Rattle.std.specs.HashMap.{get};
ghost use Rattle.pst_base.specs.declared.table.NameId.{NameId};
ghost use Rattle.pst_ast.specs.Lookups;
ghost use Rattle.pst_ast.specs.declared.scope_declaration.Declaration.{Declaration};
ghost use Rattle.pst_members.specs.Keys;
ghost use Rattle.pst_members.specs.Keys.{same_key};
ghost use Rattle.pst_members.specs.Kept.{AreLinked, AreTables, IsStart, finds};
ghost use Rattle.pst_members.specs.Rounds.{IsCut, IsRound, before};
ghost use Rattle.pst_members.specs.Found.{Keeps};

use crate::key::{ScopeKey, scope_key};
use crate::own::{member_at, put_members};
use crate::same::is_same_action;
use crate::{Linked, Versions};
use pst_ast::{Declaration, Scope};
use pst_base::{NameId, NoMemory};
use std::alloc::Global;
use std::collections::HashMap;

/// The table of an action.
#[derive(Clone, Copy)]
pub struct Table {
    pub(crate) action: Declaration,
    // A version that finds the positions of its members with its bases'.
    pub(crate) version: u32,
    // How many bases it has.
    pub(crate) bases: usize,
}

/// What the members of an action are put over.
#[derive(Clone, Copy)]
pub struct Start {
    pub(crate) version: u32,
    pub(crate) bases: usize,
}

/// Tables of the members of actions with their bases'.
///
/// A look-up takes at most one step for each bit of a name's number, whatever the number of bases
/// and of members. The table of an action holds no more than its own members: the rest it shares
/// with that of its base.
#[derive(Drop)]
pub struct Tables {
    pub(crate) versions: Versions,
    pub(crate) kept: HashMap<ScopeKey, Table>,
}

// Keeps a table at the place of its action.
fn keep_table(kept: &mut HashMap<ScopeKey, Table>, table: Table) -> Result<(), NoMemory>
    ensures ok { OnOk result ((key : ScopeKey) → get same_key kept.new key ≡ (if same_key key (Keys.scope_key (Scope.Part table.action.name.place)) then Some table else get same_key kept.old key)) }
    ensures err { OnErr result ((key : ScopeKey) → get same_key kept.new key ≡ get same_key kept.old key) }
{
    kept.insert(scope_key(Scope::Part(table.action.name.place)), table)?;
    Ok(())
}

// A version that finds the members of the last of a round, and of fewer of its bases than there are
// actions.
fn put_round(
    versions: &mut Versions,
    declarations: &[Declaration],
    linked: &Linked,
    round: &[Declaration],
) -> Result<u32, NoMemory>
    requires linked { AreLinked declarations.now linked.now }
    requires round { IsRound declarations.now round.now }
    ensures kept { Keeps versions.old versions.new }
    ensures cut { IfOk result (λ version. IsCut declarations.now versions.new version (length round.now) (before round.now 0)) }
{
    let mut version = versions.empty();
    for at in 0..round.len() {
        let scope = Scope::Part(round[at].name.place);
        version = put_members(versions, declarations, linked, scope, version)?;
    }
    Ok(version)
}

impl Tables {
    /// No tables.
    pub fn new(alloc: Global) -> Result<Tables, NoMemory>
        ensures { IfOk result (λ tables. (ds : List Declaration) → AreTables ds tables) }
    {
        let versions = Versions::new(alloc)?;
        Ok(Tables {
            versions,
            kept: HashMap::new(alloc),
        })
    }

    // The table of an action, where there is one.
    fn kept_for(&self, action: &Declaration) -> Option<Table>
        ensures is_its { IfSome result (λ table. table.action ≡ action.now) }
        ensures kept { IfSome result (λ table. get same_key self.now.kept (Keys.scope_key (Scope.Part action.now.name.place)) ≡ Some table) }
    {
        let table = self.kept.get(&scope_key(Scope::Part(action.name.place)))?;
        if is_same_action(&table.action, action) {
            Some(*table)
        } else {
            None
        }
    }

    /// The table of an action, where there is one.
    pub fn of(&self, declarations: &[Declaration], action: &Declaration) -> Option<Table>
        requires { AreTables declarations.now self.now }
        ensures { IfSome result (λ table. (name : NameId) → finds declarations.now self.now.versions table.version name ≡ Lookups.member_of declarations.now action.now name) }
    {
        let table = self.kept_for(action)?;
        if table.bases < declarations.len() {
            Some(table)
        } else {
            None
        }
    }

    /// What a table finds by a name.
    pub fn member(
        &self,
        declarations: &[Declaration],
        table: &Table,
        name: NameId,
    ) -> Option<Declaration>
        ensures { result ≡ finds declarations.now self.now.versions table.now.version name }
    {
        let position = self.versions.get(table.version, name.0)?;
        member_at(declarations, position)
    }

    // What the own members of an action with that base are put over; none where the base has no
    // table.
    fn start_of(&self, declarations: &[Declaration], base: Option<Declaration>) -> Option<Start>
        requires { AreTables declarations.now self.now }
        ensures { IfSome result (λ start. IsStart declarations.now self.now.versions base start.version start.bases) }
    {
        match base {
            None => Some(Start {
                version: self.versions.empty(),
                bases: 0,
            }),
            Some(base) => {
                let table = self.kept_for(&base)?;
                Some(Start {
                    version: table.version,
                    bases: table.bases.checked_add(1)?,
                })
            }
        }
    }

    /// Keeps the table of an action, where its base has one.
    pub fn keep(
        &mut self,
        declarations: &[Declaration],
        linked: &Linked,
        action: &Declaration,
        base: Option<Declaration>,
    ) -> Result<(), NoMemory>
        requires linked { AreLinked declarations.now linked.now }
        requires tables { AreTables declarations.now self.old }
        requires base { base ≡ Lookups.base_of declarations.now action.now }
        ensures { AreTables declarations.now self.new }
    {
        let Some(start) = self.start_of(declarations, base) else {
            return Ok(());
        };
        let scope = Scope::Part(action.name.place);
        let version = put_members(
            &mut self.versions,
            declarations,
            linked,
            scope,
            start.version,
        )?;
        keep_table(
            &mut self.kept,
            Table {
                action: *action,
                version,
                bases: start.bases,
            },
        )
    }

    // Keeps the table of an action of a round, whose members are put over those of its base.
    fn keep_next(
        &mut self,
        declarations: &[Declaration],
        linked: &Linked,
        round: &[Declaration],
        at: usize,
        version: u32,
    ) -> Result<u32, NoMemory>
        requires linked { AreLinked declarations.now linked.now }
        requires tables { AreTables declarations.now self.old }
        requires round { IsRound declarations.now round.now }
        requires within { at < length round.now }
        requires cut { IsCut declarations.now self.old.versions version (length round.now + at) (before round.now at) }
        ensures tables { AreTables declarations.now self.new }
        ensures cut { IfOk result (λ added. IsCut declarations.now self.new.versions added (length round.now + suc at) (before round.now (suc at))) }
    {
        let action = round[at];
        let scope = Scope::Part(action.name.place);
        let added = put_members(&mut self.versions, declarations, linked, scope, version)?;
        keep_table(
            &mut self.kept,
            Table {
                action,
                version: added,
                bases: round.len() - 1,
            },
        )?;
        Ok(added)
    }

    /// Keeps the tables of actions of which each is the base of the next, and the last that of the
    /// first.
    pub fn keep_round(
        &mut self,
        declarations: &[Declaration],
        linked: &Linked,
        round: &[Declaration],
    ) -> Result<(), NoMemory>
        requires linked { AreLinked declarations.now linked.now }
        requires tables { AreTables declarations.now self.old }
        requires round { IsRound declarations.now round.now }
        ensures { AreTables declarations.now self.new }
    {
        let mut version = put_round(&mut self.versions, declarations, linked, round)?;
        for at in 0..round.len() {
            version = self.keep_next(declarations, linked, round, at, version)?;
        }
        Ok(())
    }
}
