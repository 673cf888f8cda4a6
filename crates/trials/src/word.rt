// Words as cells, and rows of them, apart from the library.
use std::alloc::{AllocError, Global};

// The first variable cell.
pub const VARIABLE: u32 = 0x8000_0000;

// What a symbol's cell has for each of its arguments.
pub const ARGUMENT: u32 = 0x1_0000;

// How many rows follow the cell as its arguments.
pub fn arity(cell: u32) -> u32 {
    if cell < VARIABLE { cell / ARGUMENT } else { 0 }
}

// The row with its variables renamed.
pub fn renamed<F: Fn(u32) -> u32>(
    heap: Global,
    row: &[u32],
    rename: F,
) -> Result<Vec<u32>, AllocError>
    requires { F.IsAlwaysCallable rename }
{
    row.iter()
        .map(|&cell| if cell < VARIABLE { cell } else { rename(cell) })
        .collect(heap)
}

// The row with images in place of the cells that have one.
pub fn substituted<'a, F: Fn(u32) -> Option<&'a [u32]>>(
    heap: Global,
    row: &[u32],
    image: F,
) -> Result<Vec<u32>, AllocError>
    requires { F.IsAlwaysCallable image }
{
    let mut cells = Vec::new(heap);
    for &cell in row {
        match image(cell) {
            Some(image) => cells.extend_from_slice(image)?,
            None => cells.push(cell)?,
        }
    }
    Ok(cells)
}
