// The laws of unification. They are theorems: the function does nothing, and its contract is what is proved.
ghost use Rattle.unification.specs.Laws.{UnificationLaws};
ghost use Rattle.unification.specs.Forms.{OneFormAnswer};
ghost use Rattle.unification.specs.FormsOfRows.{OneRowsFormAnswer};

pub fn unification_laws()
    ensures forms { UnificationLaws }
    ensures form_answer { OneRowsFormAnswer }
    ensures checked_form_answer { OneFormAnswer }
{}
