// Which kinds of variables may be bound.
ghost use Rattle.std.specs.Prelude.{◌≡◌};
ghost use Rattle.unification.specs.Memory.{binds};

use cells::VARIABLE;

// A memory's variables: those of the formula begin at VARIABLE, those of the rule and of the tree here.
pub const RULE: u32 = 0x9000_0000;

pub const TREE: u32 = 0xA000_0000;

// Today all kinds are bound. Rows that stand in a tree will bind only some.
#[derive(Clone, Copy)]
pub struct Kinds {
    pub formula: bool,
    pub rule: bool,
    pub tree: bool,
}

impl Kinds {
    pub const ALL: Kinds = Kinds {
        formula: true,
        rule: true,
        tree: true,
    };

    // Whether the word is a variable of these kinds.
    #[tactic(auto, using(crate::proofs::DownFacts::binds_word))]
    pub fn binds(self, word: u32) -> bool
        ensures { result ≡ binds self word }
    {
        if word >= TREE {
            self.tree
        } else if word >= RULE {
            self.rule
        } else {
            word >= VARIABLE && self.formula
        }
    }
}
