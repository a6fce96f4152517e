//! Laws, each the contract of a function with an empty body.

ghost use Rattle.fond_rules.specs.Laws.{SelectedRuleIsPolicy, EarlierRulesDecide};

/// The policy of the rules chooses the action of the selected rule.
pub fn selected_rule_is_policy()
    ensures { SelectedRuleIsPolicy }
{}

/// A rule is sure beside all rules if and only if it is sure beside those before it.
pub fn earlier_rules_decide()
    ensures { EarlierRulesDecide }
{}
