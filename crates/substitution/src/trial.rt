// A guard that takes back what a trial has bound.
ghost use Rattle.std.specs.Prelude.{◌≡◌, take};
ghost use Rattle.substitution.specs.Bindings.{bindings_list};

use crate::bindings::Bindings;

// The list of bindings during a trial, and how long it was when the trial began. It is made where the trial begins: a function that hands out the borrowed list could not say what becomes of it.
pub struct Trial<'a> {
    pub list: &'a mut Bindings,
    pub old: usize,
}

// On every way out of a trial the list is cut back.
impl Drop for Trial<'_> {
    fn drop(self)
        ensures { bindings_list self.exit.0.now ≡ take self.entry.old (bindings_list self.entry.list.now) }
    {
        let Trial { list, old } = self;
        list.truncate(old);
    }
}
