// The laws of the relations, and the marked formulas. They are theorems: the function does nothing, and its contract is what is proved.
ghost use Rattle.matching.specs.Relations.{RelationLaws};
ghost use Rattle.matching.specs.Marked.{Marked, MarkedBinding};
ghost use Rattle.matching.specs.Pairs.{OnePairAnswer};
ghost use Rattle.matching.specs.Bound.{OneBindingAnswer};

pub fn relation_laws()
    ensures laws { RelationLaws }
    ensures marked { Marked }
    ensures marked_binding { MarkedBinding }
    ensures pair_answer { OnePairAnswer }
    ensures binding_answer { OneBindingAnswer }
{}
