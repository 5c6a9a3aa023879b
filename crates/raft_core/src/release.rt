//! Machines that are let go of.
ghost use Rattle.std.specs.Prelude.{◌≡◌, None};

/// Lets go of a machine. It is large, and a function keeps room for one that it lets go of: so this
/// stands apart from the functions that a message goes through.
#[cold]
#[inline(never)]
pub fn release<M: Drop>(machine: &mut Option<M>)
    ensures { machine.new ≡ None }
{
    *machine = None;
}

/// Lets go of a machine, if there is one.
pub fn forget<M: Drop>(machine: &mut Option<M>)
    ensures { machine.new ≡ None }
{
    if machine.is_some() {
        release(machine);
    }
}
