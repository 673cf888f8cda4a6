// Cells as they are printed.
ghost use Rattle.std.specs.Prelude.{Some};
ghost use Rattle.cells.specs.Texts.{cells_text};

use std::fmt;

// Each as a hexadecimal number, with a space between them.
#[derive(Clone, Copy)]
pub struct CellsText<'a>(pub &'a [u32]);

impl fmt::Display for CellsText<'_> {
    ghost output = { λ t. Some (cells_text t.0.now) };

    fn fmt<W: fmt::Write>(&self, f: &mut fmt::Formatter<W>) -> fmt::Result {
        let Some((first, rest)) = self.0.split_first() else {
            return Ok(());
        };
        write!(f, "0x{first:08X}")?;
        for cell in rest {
            write!(f, " 0x{cell:08X}")?;
        }
        Ok(())
    }
}
