//! A token of a message.
ghost use Rattle.std.specs.Prelude.{◌≡◌};
ghost use Rattle.event_book.specs.Inner.Views.{token_in, IsMessageToken};

use crate::book::{Book, BookId};
use crate::rule::{Holder, Repeats};
use std::marker::{Model, PhantomData};

/// A token of one output of a noted event. Who has it may let a seat take it in, once, so that the
/// seat may note the delivery. Contracts see which output it names.
#[derive(Drop)]
pub struct MessageToken<I, B: BookId> {
    holder: Holder<I>,
    of: PhantomData<B>,
}

impl<I, B: BookId> Model for MessageToken<I, B> {
    ghost use Rattle.std.specs.Prelude.{◌≡◌};
    ghost use Rattle.event_book.specs.declared.view.MessageTokenView.{MessageTokenView};
    ghost use Rattle.event_book.specs.Inner.Views.{token_in, IsMessageToken};

    ghost Value = { MessageTokenView I };

    ghost view = { λ t. token_in t.holder.me.0 };

    ghost invariant = { λ t. (t.holder.table_id ≡ B.table) × IsMessageToken t.holder.me };
}

impl<I, B: BookId> MessageToken<I, B> {
    pub(crate) fn of_holder(holder: Holder<I>) -> MessageToken<I, B>
        requires table { holder.table_id ≡ B.table }
        requires token { IsMessageToken holder.me }
        ensures { result ≡ token_in holder.me.0 }
    {
        MessageToken {
            holder,
            of: PhantomData,
        }
    }

    pub(crate) fn into_holder(self) -> Holder<I>
        ensures table { result.table_id ≡ B.table }
        ensures same { IsMessageToken result.me }
        ensures names { token_in result.me.0 ≡ self }
    {
        let MessageToken { holder, of: _ } = self;
        holder
    }

    /// Two tokens of one, for a message that is delivered once more. It takes no memory and never
    /// waits.
    /// - `first`, `second`: each names the output that it named.
    #[tactic(auto, using(crate::proofs::Moves::repeats_as))]
    pub fn again(self, book: &Book<I, B>) -> (MessageToken<I, B>, MessageToken<I, B>)
        ensures first { result.0 ≡ self }
        ensures second { result.1 ≡ self }
    {
        let mut holder = self.into_holder();
        let other = book.table.shared.split_seat::<Repeats>(&mut holder);
        (
            MessageToken::of_holder(holder),
            MessageToken::of_holder(other),
        )
    }
}
