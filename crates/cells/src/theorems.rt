// The laws of the definitions, for every row and rule. They are theorems: the function does nothing, and its contract is what is proved.
ghost use Rattle.std.specs.Prelude.{ℤ};
ghost use Rattle.cells.specs.Cells.{WordLaws};
ghost use Rattle.cells.specs.Rows.{RowLaws};
ghost use Rattle.cells.specs.Substitutions.{SubstitutionLaws};
ghost use Rattle.cells.specs.Variables.{VariableLaws};
ghost use Rattle.cells.specs.Interpretations.{ValueLaws};
ghost use Rattle.cells.specs.Checks.{OneRowAnswer};
ghost use Rattle.cells.specs.Rules.{OneSidesAnswer, RuleLaws};

// V is any set of values; the integers are one.
pub fn laws<V>()
    ensures words { WordLaws }
    ensures rows { RowLaws }
    ensures substitutions { SubstitutionLaws }
    ensures variables { VariableLaws }
    ensures values { ValueLaws V }
    ensures integers { ValueLaws ℤ }
    ensures row_answer { OneRowAnswer }
    ensures rule_answer { OneSidesAnswer }
    ensures rules { RuleLaws }
{}
