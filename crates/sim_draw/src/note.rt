//! What an event changed in its actor.
ghost use Rattle.std.specs.Prelude.{◌≡◌, IfOk, string_bytes};
ghost use Rattle.sim_draw.specs.Inner.Notes.{looks_otherwise, leads_anew, applies_more, note_words};

use crate::record::Face;
use rows::NoMemory;
use std::alloc::Global;

/// Whether a lifeline looks otherwise from an event on.
pub(crate) fn turns(before: Face, after: Face) -> bool
    ensures { result ≡ looks_otherwise before after }
{
    before.up != after.up || before.leads != after.leads || is_new_leader(before, after)
}

/// Whether a server leads a term from an event on.
pub(crate) fn is_new_leader(before: Face, after: Face) -> bool
    ensures { result ≡ leads_anew before after }
{
    after.leads && (!before.leads || before.term != after.term)
}

/// Whether a server applied entries.
pub(crate) fn commits(before: Face, after: Face) -> bool
    ensures { result ≡ applies_more before after }
{
    before.applied < after.applied
}

/// That a server leads a term, that it applied entries and up to which one, or that it came to a
/// later term. Of an event that changed none of these it is empty.
pub(crate) fn note_of(alloc: Global, before: Face, after: Face) -> Result<String, NoMemory>
    ensures { IfOk result (λ note. string_bytes note ≡ note_words before after) }
{
    let (term, applied) = (after.term, after.applied);
    if is_new_leader(before, after) {
        return Ok(format!(in alloc; "leads t{term}")?);
    }
    if commits(before, after) {
        return Ok(format!(in alloc; "commit {applied}")?);
    }
    if before.term < term {
        return Ok(format!(in alloc; "t{term}")?);
    }
    Ok(String::new(alloc))
}
