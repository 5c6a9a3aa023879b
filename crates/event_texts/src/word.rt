//! The words of a line: names, numbers, and where a line is cut.
ghost use Rattle.std.specs.Prelude.{◌≡◌, ◌<◌, ◌+◌, ◌^◌, ◌++◌, ◌∷◌, [], ℕ, List, Some, IfSome, IsSomeAnd, MatchBool, OnOk, decimal};
ghost use Rattle.std.specs.List.{join_with_byte};
ghost use Rattle.rows.specs.Fits.{FromOneFits, GroupCountFits, IndexFits, NodeIdFits, OrdinalFits, PriorityFits, QuantityFits, SizeFits, SpaceFits};
ghost use Rattle.rows.specs.Names.{NameFits};
ghost use Rattle.event_texts.specs.Inner.Plain.{IsPadded, IsWithout};

use itoa::Buffer;
use rows::{
    ClientId, GroupCount, Index, Name, NoMemory, NodeId, Ordinal, Priority, Quantity, Serial,
    ServerId, Size, Space,
};

/// What stands before the first `separator`, and what behind it; none where the text has no
/// `separator`.
pub(crate) fn cut(text: &str, separator: char) -> Option<(&str, &str)>
    requires { separator < 128 }
    ensures parts { IfSome result (λ parts. text.now ≡ parts.0.now ++ separator ∷ parts.1.now) }
    ensures first { (front back : List ℕ) → IsWithout separator front
        → text.now ≡ front ++ separator ∷ back
        → IsSomeAnd result (λ parts. (parts.0.now ≡ front) × (parts.1.now ≡ back)) }
{
    text.split_once(separator)
}

/// A name.
pub(crate) fn read_name(text: &str) -> Option<Name>
    ensures named { IfSome result (λ name. NameFits name × (text.now ≡ name)) }
    ensures read { (name : List ℕ) → NameFits name → text.now ≡ name → result ≡ Some name }
{
    Name::read(text).ok()
}

/// A number in decimal without leading zeros, below 2^64.
pub fn read_number(text: &str) -> Option<u64>
    ensures named { IfSome result (λ number. text.now ≡ decimal number) }
    ensures read { (number : ℕ) → number < 2 ^ 64 → text.now ≡ decimal number
        → result ≡ Some number }
{
    if is_padded(text.as_bytes()) {
        return None;
    }
    text.parse().ok()
}

/// Whether a sign stands in front, or a zero that is not all.
fn is_padded(text: &[u8]) -> bool
    ensures value { MatchBool result (IsPadded text.now) (IsPadded text.now → ⊥) }
{
    match text.first() {
        Some(b'+') => true,
        Some(b'0') => text.len() > 1,
        _ => false,
    }
}

/// A number in decimal without leading zeros, below 2^8.
pub(crate) fn read_byte(text: &str) -> Option<u8>
    ensures named { IfSome result (λ number. text.now ≡ decimal number) }
    ensures read { (number : ℕ) → number < 2 ^ 8 → text.now ≡ decimal number
        → result ≡ Some number }
{
    u8::try_from(read_number(text)?).ok()
}

/// A server's number, from 1 to 5.
pub fn read_server(text: &str) -> Option<ServerId>
    ensures named { IfSome result (λ server. (server < 5) × (text.now ≡ decimal (server + 1))) }
    ensures read { (server : ℕ) → server < 5 → text.now ≡ decimal (server + 1)
        → result ≡ Some server }
{
    match text.as_bytes() {
        [digit] => read_digit(*digit),
        _ => None,
    }
}

/// The server whose number this digit is.
pub(crate) fn read_digit(digit: u8) -> Option<ServerId>
    ensures named { IfSome result (λ server. (server < 5) × (digit ∷ [] ≡ decimal (server + 1))) }
    ensures read { (server : ℕ) → server < 5 → digit ∷ [] ≡ decimal (server + 1)
        → result ≡ Some server }
{
    ServerId::from_number(digit.checked_sub(b'0')?)
}

/// A node's number, from 1 to 64.
pub(crate) fn read_node(text: &str) -> Option<NodeId>
    ensures named { IfSome result (λ node. NodeIdFits node × (text.now ≡ decimal node)) }
    ensures read { (node : ℕ) → NodeIdFits node → text.now ≡ decimal node → result ≡ Some node }
{
    NodeId::from_number(read_byte(text)?)
}

/// A priority, from 1 to 100.
pub(crate) fn read_priority(text: &str) -> Option<Priority>
    ensures named { IfSome result (λ priority. PriorityFits priority
        × (text.now ≡ decimal priority)) }
    ensures read { (priority : ℕ) → PriorityFits priority → text.now ≡ decimal priority
        → result ≡ Some priority }
{
    Priority::new(read_byte(text)?)
}

/// The count of a group, from 0 to 64.
pub(crate) fn read_count(text: &str) -> Option<GroupCount>
    ensures named { IfSome result (λ count. GroupCountFits count × (text.now ≡ decimal count)) }
    ensures read { (count : ℕ) → GroupCountFits count → text.now ≡ decimal count
        → result ≡ Some count }
{
    GroupCount::new(read_byte(text)?)
}

/// How much of a resource, from 1 to 1,000,000.
pub(crate) fn read_quantity(text: &str) -> Option<Quantity>
    ensures named { IfSome result (λ quantity. QuantityFits quantity
        × (text.now ≡ decimal quantity)) }
    ensures read { (quantity : ℕ) → QuantityFits quantity → text.now ≡ decimal quantity
        → result ≡ Some quantity }
{
    let number = u32::try_from(read_number(text)?).ok()?;
    Quantity::new(number)
}

/// How much disk, from 0 to 1,000,000.
pub(crate) fn read_space(text: &str) -> Option<Space>
    ensures named { IfSome result (λ space. SpaceFits space × (text.now ≡ decimal space)) }
    ensures read { (space : ℕ) → SpaceFits space → text.now ≡ decimal space
        → result ≡ Some space }
{
    let number = u32::try_from(read_number(text)?).ok()?;
    Space::new(number)
}

/// A client's number, from 1 to 64.
pub(crate) fn read_client(text: &str) -> Option<ClientId>
    ensures named { IfSome result (λ client. NodeIdFits client × (text.now ≡ decimal client)) }
    ensures read { (client : ℕ) → NodeIdFits client
        → text.now ≡ decimal client → result ≡ Some client }
{
    ClientId::from_number(read_byte(text)?)
}

/// A place in the log or before it, from 0 to 2^40 - 1.
pub(crate) fn read_index(text: &str) -> Option<Index>
    ensures named { IfSome result (λ index. IndexFits index × (text.now ≡ decimal index)) }
    ensures read { (index : ℕ) → IndexFits index → text.now ≡ decimal index → result ≡ Some index }
{
    Index::new(read_number(text)?)
}

/// The serial of a delivery, from 1 to 2^40 - 1.
pub(crate) fn read_serial(text: &str) -> Option<Serial>
    ensures named { IfSome result (λ serial. FromOneFits serial × (text.now ≡ decimal serial)) }
    ensures read { (serial : ℕ) → FromOneFits serial
        → text.now ≡ decimal serial → result ≡ Some serial }
{
    Serial::new(read_number(text)?)
}

/// Which of at most 64, from 0 to 63.
pub(crate) fn read_ordinal(text: &str) -> Option<Ordinal>
    ensures named { IfSome result (λ ordinal. OrdinalFits ordinal × (text.now ≡ decimal ordinal)) }
    ensures read { (ordinal : ℕ) → OrdinalFits ordinal
        → text.now ≡ decimal ordinal → result ≡ Some ordinal }
{
    Ordinal::new(read_byte(text)?)
}

/// A number in decimal without leading zeros, below 2^64, and what stands behind the separator that
/// follows it.
pub(crate) fn cut_number(text: &str, separator: char) -> Option<(u64, &str)>
    requires { separator < 48 }
    ensures named { IfSome result (λ parts. text.now ≡ decimal parts.0 ++ separator ∷ parts.1.now) }
    ensures read { (number : ℕ) (rest : List ℕ) → number < 2 ^ 64
        → text.now ≡ decimal number ++ separator ∷ rest
        → IsSomeAnd result (λ parts. (parts.0 ≡ number) × (parts.1.now ≡ rest)) }
{
    let (number, rest) = cut(text, separator)?;
    Some((read_number(number)?, rest))
}

/// Puts a text to the end.
pub(crate) fn append_text(text: &str, out: &mut Vec<u8>) -> Result<(), NoMemory>
    ensures { OnOk result (out.new.items ≡ out.old.items ++ text.now) }
{
    out.extend_from_slice(text.as_bytes())?;
    Ok(())
}

/// Puts a number in decimal to the end.
pub(crate) fn append_number(number: u64, out: &mut Vec<u8>) -> Result<(), NoMemory>
    ensures { OnOk result (out.new.items ≡ out.old.items ++ decimal number) }
{
    let mut digits = Buffer::new();
    append_text(digits.format(number), out)
}

/// Puts a separator and a number in decimal to the end.
pub(crate) fn append_next(separator: u8, number: u64, out: &mut Vec<u8>) -> Result<(), NoMemory>
    ensures { OnOk result (out.new.items ≡ out.old.items ++ separator ∷ decimal number) }
{
    out.push(separator)?;
    append_number(number, out)
}

/// Puts the parts of a size to the end, each behind a separator.
pub(crate) fn append_size(separator: u8, size: Size, out: &mut Vec<u8>) -> Result<(), NoMemory>
    ensures { OnOk result (SizeFits size × (out.new.items ≡ out.old.items ++ separator
        ∷ join_with_byte separator (decimal size.cpu ∷ decimal size.mem ∷ decimal size.disk ∷ []))) }
{
    append_next(separator, size.cpu.get() as u64, out)?;
    append_next(separator, size.mem.get() as u64, out)?;
    append_next(separator, size.disk.get() as u64, out)
}
