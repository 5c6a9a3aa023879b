//! Values that have one text each, and the words of a line in front of others.
ghost use Rattle.std.specs.Prelude.{◌≡◌, ◌++◌, ◌∷◌, List, ℕ, Some, IfSome, IsSomeAnd, OnOk};
ghost use Rattle.event_texts.specs.Inner.Plain.{IsPlainWord};

use crate::request::{append_group, read_group};
use crate::word::{
    append_next, append_number, cut, cut_number, read_byte, read_client, read_index, read_name,
    read_node, read_ordinal, read_serial, read_server,
};
use rows::{
    Actor, AllocId, ClientId, EntryIndex, EvalId, Group, Index, LeaderTerm, Name, NoMemory, NodeId,
    Place, ServerId, Token,
};

/// A type whose values have one text each, in which no space and no comma stands.
pub(crate) trait Spelled: Drop {
    /// The limits of a value's parts.
    ghost Fits: { Self → Type 0 };

    /// The one text of a value.
    ghost spelling: { Self → List ℕ };

    /// No space and no comma stands in it.
    ghost plain: { (value : Self) → Fits value → IsPlainWord (spelling value) };

    /// The value that has this text.
    fn read_text(text: &str) -> Option<Self>
        ensures named { IfSome result (λ value. Fits value × (text.now ≡ spelling value)) }
        ensures read { (value : Self) → Fits value → text.now ≡ spelling value
            → result ≡ Some value };

    /// Puts the text of the value to the end.
    fn append(&self, out: &mut Vec<u8>) -> Result<(), NoMemory>
        ensures { OnOk result (Fits self.now
            × (out.new.items ≡ out.old.items ++ spelling self.now)) };
}

impl Spelled for ServerId {
    ghost use Rattle.event_texts.specs.EventLines.{ServerFits};
    ghost use Rattle.event_texts.specs.EventLines.{server_text};
    ghost use Rattle.event_texts.specs.Laws.PlainTexts.{server_plain};

    ghost Fits = { ServerFits };

    ghost spelling = { server_text };

    ghost plain = { server_plain };

    fn read_text(text: &str) -> Option<ServerId> {
        read_server(text)
    }

    fn append(&self, out: &mut Vec<u8>) -> Result<(), NoMemory> {
        append_number(self.number() as u64, out)
    }
}

impl Spelled for ClientId {
    ghost use Rattle.rows.specs.Fits.{NodeIdFits};
    ghost use Rattle.std.specs.Prelude.{decimal};
    ghost use Rattle.event_texts.specs.Laws.PlainTexts.{client_plain};

    ghost Fits = { NodeIdFits };

    ghost spelling = { decimal };

    ghost plain = { client_plain };

    fn read_text(text: &str) -> Option<ClientId> {
        read_client(text)
    }

    fn append(&self, out: &mut Vec<u8>) -> Result<(), NoMemory> {
        append_number(self.number() as u64, out)
    }
}

impl Spelled for NodeId {
    ghost use Rattle.rows.specs.Fits.{NodeIdFits};
    ghost use Rattle.std.specs.Prelude.{decimal};
    ghost use Rattle.event_texts.specs.Laws.PlainTexts.{node_plain};

    ghost Fits = { NodeIdFits };

    ghost spelling = { decimal };

    ghost plain = { node_plain };

    fn read_text(text: &str) -> Option<NodeId> {
        read_node(text)
    }

    fn append(&self, out: &mut Vec<u8>) -> Result<(), NoMemory> {
        append_number(self.number() as u64, out)
    }
}

impl Spelled for Actor {
    ghost use Rattle.event_texts.specs.Inner.Actors.{ActorFits};
    ghost use Rattle.event_texts.specs.Inner.Actors.{actor_text};
    ghost use Rattle.event_texts.specs.Laws.PlainTexts.{actor_plain};

    ghost Fits = { ActorFits };

    ghost spelling = { actor_text };

    ghost plain = { actor_plain };

    fn read_text(text: &str) -> Option<Actor> {
        match text.strip_prefix("c") {
            Some(client) => Some(Actor::Client(read_client(client)?)),
            None => Some(Actor::Server(read_server(text)?)),
        }
    }

    fn append(&self, out: &mut Vec<u8>) -> Result<(), NoMemory> {
        match self {
            Actor::Server(server) => server.append(out),
            Actor::Client(client) => {
                out.push(b'c')?;
                client.append(out)
            }
        }
    }
}

impl Spelled for Index {
    ghost use Rattle.rows.specs.Fits.{IndexFits};
    ghost use Rattle.std.specs.Prelude.{decimal};
    ghost use Rattle.event_texts.specs.Laws.PlainTexts.{index_plain};

    ghost Fits = { IndexFits };

    ghost spelling = { decimal };

    ghost plain = { index_plain };

    fn read_text(text: &str) -> Option<Index> {
        read_index(text)
    }

    fn append(&self, out: &mut Vec<u8>) -> Result<(), NoMemory> {
        append_number(self.get(), out)
    }
}

impl Spelled for Name {
    ghost use Rattle.rows.specs.Names.{NameFits};
    ghost use Rattle.event_texts.specs.Laws.PlainTexts.{name_plain};

    ghost Fits = { NameFits };

    ghost spelling = { λ name. name };

    ghost plain = { name_plain };

    fn read_text(text: &str) -> Option<Name> {
        read_name(text)
    }

    fn append(&self, out: &mut Vec<u8>) -> Result<(), NoMemory> {
        out.extend_from_slice(self.as_bytes())?;
        Ok(())
    }
}

impl Spelled for EvalId {
    ghost use Rattle.rows.specs.Fits.{EvalIdFits};
    ghost use Rattle.event_texts.specs.WorkerLines.{eval_text};
    ghost use Rattle.event_texts.specs.Laws.PlainTexts.{eval_plain};

    ghost Fits = { EvalIdFits };

    ghost spelling = { eval_text };

    ghost plain = { eval_plain };

    fn read_text(text: &str) -> Option<EvalId> {
        let (index, slot) = cut_number(text, '.')?;
        Some(EvalId {
            index: EntryIndex::new(index)?,
            slot: read_byte(slot)?,
        })
    }

    fn append(&self, out: &mut Vec<u8>) -> Result<(), NoMemory> {
        append_number(self.index.get(), out)?;
        append_next(b'.', self.slot as u64, out)
    }
}

impl Spelled for AllocId {
    ghost use Rattle.rows.specs.Fits.{AllocIdFits};
    ghost use Rattle.event_texts.specs.WorkerLines.{alloc_text};
    ghost use Rattle.event_texts.specs.Laws.PlainTexts.{alloc_plain};

    ghost Fits = { AllocIdFits };

    ghost spelling = { alloc_text };

    ghost plain = { alloc_plain };

    fn read_text(text: &str) -> Option<AllocId> {
        let (index, slot) = cut_number(text, '.')?;
        Some(AllocId {
            index: EntryIndex::new(index)?,
            slot: read_ordinal(slot)?,
        })
    }

    fn append(&self, out: &mut Vec<u8>) -> Result<(), NoMemory> {
        append_number(self.index.get(), out)?;
        append_next(b'.', self.slot.get() as u64, out)
    }
}

impl Spelled for Token {
    ghost use Rattle.rows.specs.Fits.{TokenFits};
    ghost use Rattle.event_texts.specs.WorkerLines.{token_text};
    ghost use Rattle.event_texts.specs.Laws.PlainTexts.{token_plain};

    ghost Fits = { TokenFits };

    ghost spelling = { token_text };

    ghost plain = { token_plain };

    fn read_text(text: &str) -> Option<Token> {
        let (term, serial) = cut_number(text, '.')?;
        Some(Token {
            term: LeaderTerm::new(term)?,
            serial: read_serial(serial)?,
        })
    }

    fn append(&self, out: &mut Vec<u8>) -> Result<(), NoMemory> {
        append_number(self.term.get(), out)?;
        append_next(b'.', self.serial.get(), out)
    }
}

impl Spelled for Place {
    ghost use Rattle.rows.specs.Fits.{PlaceFits};
    ghost use Rattle.event_texts.specs.WorkerLines.{place_text};
    ghost use Rattle.event_texts.specs.Laws.PlainTexts.{place_plain};

    ghost Fits = { PlaceFits };

    ghost spelling = { place_text };

    ghost plain = { place_plain };

    fn read_text(text: &str) -> Option<Place> {
        let (group, rest) = cut(text, ':')?;
        let (index, node) = cut(rest, ':')?;
        Some(Place {
            group: read_name(group)?,
            index: read_ordinal(index)?,
            node: read_node(node)?,
        })
    }

    fn append(&self, out: &mut Vec<u8>) -> Result<(), NoMemory> {
        self.group.append(out)?;
        append_next(b':', self.index.get() as u64, out)?;
        append_next(b':', self.node.number() as u64, out)
    }
}

impl Spelled for Group {
    ghost use Rattle.rows.specs.Fits.{GroupFits};
    ghost use Rattle.event_texts.specs.Requests.{group_text};
    ghost use Rattle.event_texts.specs.Laws.PlainTexts.{group_plain};

    ghost Fits = { GroupFits };

    ghost spelling = { group_text };

    ghost plain = { group_plain };

    fn read_text(text: &str) -> Option<Group> {
        read_group(text)
    }

    fn append(&self, out: &mut Vec<u8>) -> Result<(), NoMemory> {
        append_group(self, out)
    }
}

/// The value in front of the first space, and what stands behind the space.
pub(crate) fn cut_word<T: Spelled>(text: &str) -> Option<(T, &str)>
    ensures named { IfSome result (λ parts. T.Fits parts.0
        × (text.now ≡ T.spelling parts.0 ++ 32 ∷ parts.1.now)) }
    ensures read { (value : T) (rest : List ℕ) → T.Fits value
        → text.now ≡ T.spelling value ++ 32 ∷ rest
        → IsSomeAnd result (λ parts. (parts.0 ≡ value) × (parts.1.now ≡ rest)) }
{
    let (word, rest) = cut(text, ' ')?;
    Some((T::read_text(word)?, rest))
}

/// Two values with a space between.
pub(crate) fn read_pair<A: Spelled, B: Spelled>(text: &str) -> Option<(A, B)>
    ensures named { IfSome result (λ pair. A.Fits pair.0 × B.Fits pair.1
        × (text.now ≡ A.spelling pair.0 ++ 32 ∷ B.spelling pair.1)) }
    ensures read { (a : A) (b : B) → A.Fits a → B.Fits b
        → text.now ≡ A.spelling a ++ 32 ∷ B.spelling b → result ≡ Some (a, b) }
{
    let (first, rest) = cut_word(text)?;
    Some((first, B::read_text(rest)?))
}

/// Two values with a space behind each, and what stands behind them.
pub(crate) fn cut_pair<A: Spelled, B: Spelled>(text: &str) -> Option<(A, B, &str)>
    ensures named { IfSome result (λ parts. A.Fits parts.0 × B.Fits parts.1
        × (text.now ≡ A.spelling parts.0 ++ 32 ∷ (B.spelling parts.1 ++ 32 ∷ parts.2.now))) }
    ensures read { (a : A) (b : B) (rest : List ℕ) → A.Fits a → B.Fits b
        → text.now ≡ A.spelling a ++ 32 ∷ (B.spelling b ++ 32 ∷ rest)
        → IsSomeAnd result (λ parts. (parts.0 ≡ a) × (parts.1 ≡ b) × (parts.2.now ≡ rest)) }
{
    let (first, rest) = cut_word(text)?;
    let (second, rest) = cut_word(rest)?;
    Some((first, second, rest))
}

/// Puts a space and the text of a value to the end.
pub(crate) fn append_word<T: Spelled>(value: &T, out: &mut Vec<u8>) -> Result<(), NoMemory>
    ensures { OnOk result (T.Fits value.now
        × (out.new.items ≡ out.old.items ++ 32 ∷ T.spelling value.now)) }
{
    out.push(b' ')?;
    value.append(out)
}
