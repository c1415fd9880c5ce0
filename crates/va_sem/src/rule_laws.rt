//! Laws of the rules, as contracts of functions with nothing to do.
ghost use Rattle.va_sem.specs.rules.RuleLaws.{RulesAreMonotone, RulesGiveLeastSets};
ghost use Rattle.va_sem.specs.rules.SureContributions.{ContributionsAreSure};

/// The variables that are biased, timed, or dependent on an unknown in their resistive or reactive part: each of these sets is
/// closed under its rule, and within every set that is.
pub fn rules_give_least_sets()
    ensures { RulesGiveLeastSets }
{}

/// Each of these rules is monotone: from a larger set of variables at least as many follow.
pub fn rules_are_monotone()
    ensures { RulesAreMonotone }
{}

/// The branches to which every path through a statement contributes are found as one list, for all branches at once.
pub fn contributions_are_sure()
    ensures { ContributionsAreSure }
{}
