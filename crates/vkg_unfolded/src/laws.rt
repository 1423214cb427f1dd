//! Laws of the plans. These functions compute nothing; what they ensure is the law.
ghost use Rattle.std.specs.Prelude.{List};
ghost use Rattle.vkg_plan.specs.Kinds.{Tables};
ghost use Rattle.vkg_row_rules.specs.declared.row_rule.RowRule.{RowRule};
ghost use Rattle.vkg_unfolded.specs.FittingRules.{AreFitting, HasAnswerColumns, HasTermColumns};

/// Over rules that fit the tables every plan is well typed: it has a column of terms for each variable, in mode each one for the
/// graph, and a query's plan has one for each selected variable.
pub fn term_columns()
    ensures plans { (schema : Tables) (rules : List RowRule) → AreFitting schema rules → HasTermColumns schema rules }
    ensures answers { (schema : Tables) (rules : List RowRule) → AreFitting schema rules → HasAnswerColumns schema rules }
{}
