//! The words that decide, drawn one after the other.
ghost use Rattle.std.specs.Prelude.{◌≡◌, ◌+◌, ◌%◌, ◌^◌};
ghost use Rattle.lossy_net.specs.Fates.{IsPutSoOften};
ghost use Rattle.lossy_net.specs.Words.{nth_word};

use crate::message_fate::{MessageFate, fate};
use rand_chacha::ChaCha8Rng;
use rand_core::SeedableRng;
use rand_core::utils::NextWord;
use std::marker::Model;

/// The words that decide what becomes of messages: the 32-bit words of ChaCha8 under a key, one
/// after the other, so that a key gives the same words each time. They repeat after 2^68 of them.
/// Contracts see the key and the number of words that were drawn. (D. J. Bernstein, "ChaCha, a
/// variant of Salsa20", 2008, with eight rounds; the nonce is 0, and blocks are counted from 0.)
#[derive(Drop)]
pub struct Fates {
    // It is read in contracts alone, which say the words by it.
    key: u64,
    words: ChaCha8Rng,
}

impl Model for Fates {
    ghost use Rattle.std.specs.Prelude.{◌≡◌};
    ghost use Rattle.rand_chacha.specs.ChaCha.{key_of};
    ghost use Rattle.lossy_net.specs.Words.{Keystream, key_bytes};

    ghost Value = { Keystream };

    ghost view = { λ f. record { key = f.key; drawn = f.words.word_pos } };

    ghost invariant = { λ f. (f.words.key ≡ key_of (key_bytes f.key)) × (f.words.stream ≡ 0) };
}

impl Fates {
    /// The words of a key, of which none is drawn yet. Each number is a key: the 32 bytes of
    /// ChaCha's key are its 8 big-endian bytes and 24 zeros. It takes no memory.
    pub fn new(key: u64) -> Fates
        ensures key { result.key ≡ key }
        ensures drawn { result.drawn ≡ 0 }
    {
        let mut bytes = [0; 32];
        bytes[..8].copy_from_slice(&key.to_be_bytes());
        Fates {
            key,
            words: ChaCha8Rng::from_seed(bytes),
        }
    }

    /// The next word. There always is one: behind the last of the 2^68 comes the first again.
    /// - `word`: as many words of the key stand before it as were drawn.
    /// - `key`: the words to come are those of the same key.
    /// - `drawn`: one more was drawn.
    #[tactic(auto, unfolding(crate::specs::Words::nth_word))]
    pub fn next(&mut self) -> u32
        ensures word { result ≡ nth_word self.old.key self.old.drawn }
        ensures key { self.new.key ≡ self.old.key }
        ensures drawn { self.new.drawn ≡ (self.old.drawn + 1) % 2 ^ 68 }
    {
        self.words.next_word()
    }

    /// How often the next message is put on its way, where `drop` percent of the messages are to be
    /// lost and `repeat` percent to come twice: the next word gives it its fate, as `fate` says.
    /// - `times`: never where it is lost, twice where it is repeated, and else once.
    /// - `key`: the words to come are those of the same key.
    /// - `drawn`: one more was drawn.
    pub fn times(&mut self, drop: u8, repeat: u8) -> u8
        ensures times { IsPutSoOften (nth_word self.old.key self.old.drawn) drop repeat result }
        ensures key { self.new.key ≡ self.old.key }
        ensures drawn { self.new.drawn ≡ (self.old.drawn + 1) % 2 ^ 68 }
    {
        match fate(self.next(), drop, repeat) {
            MessageFate::Lose => 0,
            MessageFate::Once => 1,
            MessageFate::Repeat => 2,
        }
    }
}
