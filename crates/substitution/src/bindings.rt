// A substitution given by parts of a row.
ghost use Rattle.std.specs.Prelude.{◌≡◌, ◌≤◌, [], ◌∷◌, ◌++◌, length, take, if◌then◌else◌, nat_lt, is_ok};

// The `len` cells from position `at` on.
#[derive(Clone, Copy, Default, PartialEq, Eq)]
pub struct Part {
    pub at: usize,
    pub len: usize,
}

// A variable of the pattern, by its cell, and the part that is put for it.
#[derive(Clone, Copy, Default)]
pub struct Binding {
    pub variable: u32,
    pub part: Part,
}

// At most 256 bindings, in the order in which they were made. The first one of a variable counts.
// An array and a length rather than an ArrayVec, which cannot be copied.
#[derive(Clone, Copy, Drop)]
pub struct Bindings {
    items: [Binding; 256],
    len: usize,
    ghost fits: { len ≤ 256 },
}

// The list has no room for one binding more.
#[derive(Clone, Copy, PartialEq, Eq)]
pub struct Full;

impl Bindings {
    ghost use Rattle.substitution.specs.Bindings.{bindings_list, binding, lookup};

    // No variable is bound.
    pub fn none() -> Bindings
        ensures { bindings_list result ≡ [] }
    {
        Bindings {
            items: [Binding::default(); 256],
            len: 0,
        }
    }

    // How many bindings there are.
    pub fn len(&self) -> usize
        ensures { result ≡ length (bindings_list self.now) }
    {
        self.len
    }

    // The part that is put for the variable, by its cell.
    pub fn find(&self, cell: u32) -> Option<Part>
        ensures { result ≡ lookup (bindings_list self.now) cell }
    {
        for binding in &self.items[..self.len] {
            if binding.variable == cell {
                return Some(binding.part);
            }
        }
        None
    }

    // One binding more, unless the list is full.
    pub fn push(&mut self, variable: u32, part: Part) -> Result<(), Full>
        ensures done { is_ok result ≡ nat_lt (length (bindings_list self.old)) 256 }
        ensures list { bindings_list self.new ≡ (if is_ok result then bindings_list self.old ++ binding variable part ∷ [] else bindings_list self.old) }
    {
        if self.len == self.items.len() {
            return Err(Full);
        }
        self.items[self.len] = Binding { variable, part };
        self.len += 1;
        Ok(())
    }

    // Only the first n bindings stay.
    pub fn truncate(&mut self, n: usize)
        ensures { bindings_list self.new ≡ take n (bindings_list self.old) }
    {
        self.len = self.len.min(n);
    }
}
