ghost use Rattle.std.specs.Cmp.Lexicographic.{slice_cmp};
ghost use Rattle.std.specs.Int.{w64, from_be_bytes};
ghost use Rattle.std.specs.List.{list_all};
ghost use Rattle.std.specs.Ordering.{nat_cmp};
ghost use Rattle.std.specs.Prelude.{◌≡◌, ◌≤◌, length, IfOk, IfErr, IfSome, IfNone, false};
ghost use Rattle.rows.specs.Names.{is_name, is_name_byte, NameFits};
ghost use Rattle.rows.specs.declared.refusal.Refusal.TheVariants as refusals;

use crate::refusal::Refusal;
use std::cmp::Ordering;
use std::fmt;
use std::marker::Model;

/// A name of a job, a group or a class: 1 to 32 bytes of `a` to `z`, `0` to `9` and `-`. Contracts
/// see the list of its bytes. Names are ordered by their bytes.
#[derive(Clone, Copy, Debug)]
pub struct Name {
    /// The bytes, and zeros behind them.
    bytes: [u8; 32],
    size: u8,
}

/// The name of a job.
pub type JobName = Name;

/// The name of a group of a job.
pub type GroupName = Name;

/// The class of a node, which groups ask for.
pub type ClassName = Name;

impl Model for Name {
    ghost use Rattle.std.specs.Prelude.{ℕ, List, ◌≡◌, ◌++◌, ◌-◌, ◌≤◌, length, take, drop, replicate};
    ghost use Rattle.rows.specs.Names.{NameFits};
    ghost use Rattle.rows.specs.Laws.NameLaws.{bytes_back, size_back};

    ghost Value = { List ℕ };

    ghost view = { λ n. take n.size n.bytes };

    ghost invariant = { λ n. (length n.bytes ≡ 32) × (n.size ≤ 32) × NameFits (take n.size n.bytes) × (drop n.size n.bytes ≡ replicate (32 - n.size) 0) };

    ghost inverse = { λ s. record { bytes = s ++ replicate (32 - length s) 0; size = length s } };

    ghost inverse_ok = { λ n h i. record { bytes = bytes_back n.size n.bytes h.0 h.1 h.3 i; size = size_back n.size n.bytes h.0 h.1 i } };
}

impl Name {
    /// The greatest number of bytes: 32.
    pub const MOST: usize = 32;

    /// The name that these bytes are; none where they are no name.
    pub fn from_bytes(bytes: &[u8]) -> Option<Name>
        ensures some { IfSome result (λ n. (n ≡ bytes.now) × NameFits bytes.now) }
        ensures none { IfNone result (is_name bytes.now ≡ false) }
    {
        if !is_name(bytes) {
            return None;
        }
        let mut cells = [0; 32];
        cells[..bytes.len()].copy_from_slice(bytes);
        Some(Name {
            bytes: cells,
            size: bytes.len() as u8,
        })
    }

    /// The name of a text. `BadName` where it is not 1 to 32 of `a` to `z`, `0` to `9` and `-`.
    pub fn read(text: &str) -> Result<Name, Refusal>
        ensures ok { IfOk result (λ n. (n ≡ text.now) × NameFits text.now) }
        ensures err { IfErr result (λ e. (e ≡ refusals.BadName) × (is_name text.now ≡ false)) }
    {
        match Name::from_bytes(text.as_bytes()) {
            Some(name) => Ok(name),
            None => Err(Refusal::BadName),
        }
    }

    /// The name as text.
    pub fn as_str(&self) -> &str
        ensures { result.now ≡ self.now }
    {
        str::from_utf8(self.as_bytes()).unwrap()
    }

    /// The bytes, in their order.
    pub fn as_bytes(&self) -> &[u8]
        ensures bytes { result.now ≡ self.now }
        ensures name { NameFits result.now }
    {
        &self.bytes[..self.size as usize]
    }
}

/// Whether a byte may stand in a name.
fn is_name_byte(byte: u8) -> bool
    ensures { result ≡ is_name_byte byte }
{
    (byte >= b'a' && byte <= b'z') || (byte >= b'0' && byte <= b'9') || byte == b'-'
}

/// Whether each byte may stand in a name.
fn are_name_bytes(bytes: &[u8]) -> bool
    ensures { result ≡ list_all is_name_byte bytes.now }
{
    bytes.iter().all(|byte| is_name_byte(*byte))
}

/// Whether the bytes are a name: 1 to 32 bytes of `a` to `z`, `0` to `9` and `-`.
fn is_name(bytes: &[u8]) -> bool
    ensures { result ≡ is_name bytes.now }
{
    !bytes.is_empty() && bytes.len() <= Name::MOST && are_name_bytes(bytes)
}

/// The text of the name.
impl fmt::Display for Name {
    ghost use Rattle.std.specs.Prelude.{Some};

    ghost output = { λ n. Some n };

    fn fmt<W: fmt::Write>(&self, f: &mut fmt::Formatter<W>) -> fmt::Result {
        f.write_str(self.as_str())
    }
}

impl PartialEq for Name {
    ghost use Rattle.std.specs.Prelude.{bytes_eq};
    ghost use Rattle.std.specs.Cmp.{partial_equiv_from_equiv};
    ghost use Rattle.std.specs.Cmp.Lexicographic.{nat_list_eq_equiv};

    ghost eq = { bytes_eq };

    ghost laws = { partial_equiv_from_equiv nat_list_eq_equiv };

    fn eq(&self, other: &Name) -> bool {
        self.cmp(other).is_eq()
    }
}

impl Eq for Name {
    ghost use Rattle.std.specs.Cmp.Lexicographic.{nat_list_eq_equiv};

    ghost laws = { nat_list_eq_equiv };
}

impl PartialOrd for Name {
    ghost use Rattle.std.specs.Ordering.{nat_cmp};
    ghost use Rattle.std.specs.Cmp.Lexicographic.{slice_cmp, texts_po};
    ghost use Rattle.std.specs.Prelude.{Some};

    ghost partial_cmp = { λ a b. Some (slice_cmp nat_cmp a b) };

    ghost laws = { texts_po };

    fn partial_cmp(&self, other: &Name) -> Option<Ordering> {
        Some(self.cmp(other))
    }
}

/// By their bytes.
impl Ord for Name {
    ghost use Rattle.std.specs.Ordering.{nat_cmp};
    ghost use Rattle.std.specs.Cmp.Lexicographic.{slice_cmp, nat_list_cmp_total, texts_ties};
    ghost use Rattle.std.specs.Prelude.{refl};

    ghost cmp = { slice_cmp nat_cmp };

    ghost total = { nat_list_cmp_total };

    ghost matches_partial_cmp = { λ a b. refl };

    ghost matches_eq = { λ a b. texts_ties a b };

    fn cmp(&self, other: &Name) -> Ordering {
        cmp_by_words(&self.bytes, &other.bytes)
    }
}

/// How the bytes compare: the first that differ decide. Eight at a time, as numbers, since what a
/// server does for a job is mostly to look for names.
fn cmp_by_words(left: &[u8; 32], right: &[u8; 32]) -> Ordering
    ensures { result ≡ slice_cmp nat_cmp left.now right.now }
{
    for k in 0..4 {
        let (word, other) = (first_word(&left[8 * k..]), first_word(&right[8 * k..]));
        if word != other {
            return word.cmp(&other);
        }
    }
    Ordering::Equal
}

/// The first eight bytes as a number, the first of them the highest.
fn first_word(bytes: &[u8]) -> u64
    requires { 8 ≤ length bytes.now }
    ensures { result ≡ from_be_bytes w64 bytes.now }
{
    u64::from_be_bytes([
        bytes[0], bytes[1], bytes[2], bytes[3], bytes[4], bytes[5], bytes[6], bytes[7],
    ])
}
