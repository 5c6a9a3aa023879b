//! Lists that keep a rule, as an order or that there are no doubles.
ghost use Rattle.std.specs.Prelude.{ℕ, List, [], Bool};
ghost use Rattle.fields_model.specs.Format.{Format, Gives, IsRuled, ruled_at, ruled_list};

use crate::field::Field;
use crate::reading::{read_count, read_long_count};
use rows::{Refusal, Sequence, Version};
use std::alloc::Global;

/// A type whose lists keep a rule, as an order or that there are no doubles.
pub trait RuledField: Field {
    /// Whether a value may stand behind those in front of it.
    ghost rule: { List Self → Self → Bool };

    /// How a value of a version is read behind those in front of it: as ever, and the rule is asked
    /// too, as soon as what it asks was read.
    ghost behind: { ℕ → List Self → Format Self };

    /// Reads the value whose text of a version stands at a place, behind these. `Frame` names its
    /// first byte where the rule forbids it.
    fn read_behind(
        version: Version,
        alloc: Global,
        bytes: &[u8],
        at: usize,
        front: &[Self],
    ) -> Result<(Self, usize), Refusal>
        ensures { Gives result ((behind version front.now).read bytes.now at) };

    /// Both ways of reading agree.
    ghost ruled: { (version : ℕ) → IsRuled rule (Self.format version) (behind version) };
}

/// So many values that keep their rule. `Frame` names the first field at fault, or the first byte
/// of a value that the rule forbids where it stands.
fn read_ruled_items<F: RuledField>(
    version: Version,
    alloc: Global,
    bytes: &[u8],
    at: usize,
    count: usize,
) -> Result<(Sequence<F>, usize), Refusal>
    ensures { Gives result (ruled_at (F.behind version) [] count bytes.now at) }
{
    // A count may promise more items than the text has: no room for all of them ahead.
    let mut items = Vec::with_capacity(alloc, count.min(8))?;
    let mut at = at;
    for _ in 0..count {
        let (item, next) = F::read_behind(version, alloc, bytes, at, &items)?;
        items.push(item)?;
        at = next;
    }
    Ok((Sequence::from_vec(items), at))
}

/// A count of one byte, and that many values that keep their rule. A count of more than `most` is a
/// fault at the count.
pub fn read_ruled_list<F: RuledField>(
    version: Version,
    alloc: Global,
    bytes: &[u8],
    at: usize,
    most: u8,
) -> Result<(Sequence<F>, usize), Refusal>
    ensures { Gives result ((ruled_list 1 most F.rule (F.format version) (F.behind version)).read
        bytes.now at) }
{
    let (count, next) = read_count(bytes, at, most)?;
    read_ruled_items(version, alloc, bytes, next, count)
}

/// A count of four bytes, and that many values that keep their rule. A count of more than `most` is
/// a fault at the count.
pub fn read_long_ruled_list<F: RuledField>(
    version: Version,
    alloc: Global,
    bytes: &[u8],
    at: usize,
    most: u32,
) -> Result<(Sequence<F>, usize), Refusal>
    ensures { Gives result ((ruled_list 4 most F.rule (F.format version) (F.behind version)).read
        bytes.now at) }
{
    let (count, next) = read_long_count(bytes, at, most)?;
    read_ruled_items(version, alloc, bytes, next, count)
}
