//! Laws of the core's rule, which looks at order and conflicts alone.
ghost use Rattle.pst_order.specs.Laws.{PrefixIsByRule, RuleIsLegal, RuleIsPrefix, KeptIsPrefix, RuleKeepsReaders, RuleGoesOn, RuleFits, RuleIsFew};

/// What begins a whole legal trace is made by the rule.
pub fn prefix_is_by_rule()
    ensures { PrefixIsByRule }
{}

/// What the rule makes is legal.
pub fn rule_is_legal()
    ensures { RuleIsLegal }
{}

/// What the rule makes begins a whole legal trace, on lanes for the widest group.
pub fn rule_is_prefix()
    ensures { RuleIsPrefix }
{}

/// The rule makes exactly the legal traces in which no object is replaced before its readers
/// ended, and each of these begins a whole legal trace.
pub fn readers_are_kept()
    ensures keeps { RuleKeepsReaders }
    ensures prefix { KeptIsPrefix }
{}

/// Where nothing runs and not every action has ended, a group can start.
pub fn rule_goes_on()
    ensures { RuleGoesOn }
{}

/// A trace that the rule makes has no more than two events for each action, and no more blocks of
/// starts, and no more ends, than there are actions.
pub fn rule_fits()
    ensures fits { RuleFits }
    ensures few { RuleIsFew }
{}
