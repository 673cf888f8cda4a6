// The names of relations, as they are printed.
ghost use Rattle.std.specs.Prelude.{Some};
ghost use Rattle.std.specs.List.{flat_map};
ghost use Rattle.rulebook.specs.Printing.{further_name, names_text};

use matching::Relation;
use std::fmt;

// The names of the relations that hold, each behind a space.
#[derive(Clone, Copy)]
struct FurtherNames<'a>(&'a [(bool, Relation)]);

impl fmt::Display for FurtherNames<'_> {
    ghost output = { λ t. Some (flat_map further_name t.0.now) };

    fn fmt<W: fmt::Write>(&self, f: &mut fmt::Formatter<W>) -> fmt::Result {
        for (holds, relation) in self.0 {
            if *holds {
                write!(f, " {relation}")?;
            }
        }
        Ok(())
    }
}

// The same, with a space between them, or `none`.
#[derive(Clone, Copy)]
pub struct Names<'a>(pub &'a [(bool, Relation)]);

impl fmt::Display for Names<'_> {
    ghost output = { λ t. Some (names_text t.0.now) };

    fn fmt<W: fmt::Write>(&self, f: &mut fmt::Formatter<W>) -> fmt::Result {
        for (i, (holds, relation)) in self.0.iter().enumerate() {
            if *holds {
                return write!(f, "{relation}{}", FurtherNames(&self.0[i + 1..]));
            }
        }
        f.write_str("none")
    }
}
