// The relations of a left side to a formula, by name.
ghost use Rattle.std.specs.Prelude.{Some};
ghost use Rattle.std.specs.Fmt.{padded};
ghost use Rattle.matching.specs.Named.{relation_name, IsNamed};

use std::fmt;
use std::str::FromStr;

#[derive(Clone, Copy, PartialEq, Eq)]
pub enum Relation {
    General,
    Instance,
    Variant,
    Unifiable,
}

// A word that is no relation's name.
#[derive(Clone, Copy)]
pub struct UnknownRelation;

impl FromStr for Relation {
    type Err = UnknownRelation;

    ghost from_str_gives = { IsNamed };

    fn from_str(word: &str) -> Result<Relation, UnknownRelation> {
        match word {
            "general" => Ok(Relation::General),
            "instance" => Ok(Relation::Instance),
            "variant" => Ok(Relation::Variant),
            "unifiable" => Ok(Relation::Unifiable),
            _ => Err(UnknownRelation),
        }
    }
}

impl fmt::Display for Relation {
    ghost output = { λ r. Some (relation_name r) };

    ghost styled_output = { λ r spec. Some (padded spec (relation_name r)) };

    fn fmt<W: fmt::Write>(&self, f: &mut fmt::Formatter<W>) -> fmt::Result {
        f.pad(match self {
            Relation::General => "general",
            Relation::Instance => "instance",
            Relation::Variant => "variant",
            Relation::Unifiable => "unifiable",
        })
    }
}
