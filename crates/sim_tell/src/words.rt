//! Words, one behind the other.
ghost use Rattle.std.specs.Prelude.{◌≡◌, OnOk, string_bytes};
ghost use Rattle.sim_tell.specs.Words.{parted};

use rows::NoMemory;

/// A comma, where there are words before those that come.
pub(crate) fn part(words: &mut String) -> Result<(), NoMemory>
    ensures { OnOk result (string_bytes words.new ≡ parted (string_bytes words.old)) }
{
    if !words.is_empty() {
        words.push_str(", ")?;
    }
    Ok(())
}
