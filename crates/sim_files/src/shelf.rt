//! The files that a run reads and writes.
ghost use Rattle.std.specs.Prelude.{◌≡◌, ◌↔◌, ℕ, IfOk, IfSome, IsTrue, List, None, OnOk, Option, option_map};
ghost use Rattle.sim_files.specs.Shelves.{LieApart, MayBeMade};

/// Why a file could not be read or written.
#[derive(Clone, Copy, Debug, PartialEq, Eq)]
pub enum ShelfFault {
    /// The file is missing, or cannot be read or written.
    Failed,
    /// There is no memory for it.
    NoMemory,
}

/// Files by name. The program reads and writes the real ones, a test those that it made up.
pub trait Shelf {
    // The bytes of the file of this name, where they are known.
    ghost file: { Self → List ℕ → Option (List ℕ) } = { λ _ _. None };

    /// All bytes of a file.
    fn read(&mut self, name: &str) -> Result<Vec<u8>, ShelfFault>
        ensures { IfSome (file self.old name.now) (λ known.
            IfOk result (λ bytes. bytes.items ≡ known)) };

    /// Makes a file of these bytes, in place of the one of that name.
    fn write(&mut self, name: &str, bytes: &[u8]) -> Result<(), ShelfFault>
        ensures { IfSome (file self.new name.now) (λ known.
            OnOk result (known ≡ bytes.now)) };
}

/// Whether a file of this name may be made once the one of the other name was read, if one was: not
/// the one that was read, and none of the name `-`, which stands for the standard input.
pub fn may_write(name: &str, read: Option<&str>) -> bool
    ensures { IsTrue result ↔ MayBeMade name.now (option_map (λ r. r.now) read.entry) }
{
    match read {
        Some(read) => name != "-" && name != read,
        None => name != "-",
    }
}

/// The same where it was looked at where both files lie: nor one that lies where the one that was
/// read does.
pub fn may_replace(name: &str, at: Option<&str>, read: Option<&str>, read_at: Option<&str>) -> bool
    ensures { IsTrue result ↔ (MayBeMade name.now (option_map (λ r. r.now) read.entry)
        × LieApart (option_map (λ a. a.now) at.entry) (option_map (λ r. r.now) read_at.entry)) }
{
    may_write(name, read) && lie_apart(at, read_at)
}

// Whether two files lie at two places, or one of them nowhere.
fn lie_apart(one: Option<&str>, other: Option<&str>) -> bool
    ensures { IsTrue result ↔ LieApart (option_map (λ o. o.now) one.entry)
        (option_map (λ o. o.now) other.entry) }
{
    match (one, other) {
        (Some(one), Some(other)) => one != other,
        _ => true,
    }
}
