//! The book of events: notes, tokens and a delivery of two servers, and lists of actors for which
//! no book opens.
ghost use Rattle.std.specs.Prelude.{◌≡◌, [], ◌∷◌, IfOk};
ghost use Rattle.event_book.specs.Seats.{Names};

use event_book::{
    ActorEvent, ActorSeat, Book, BookId, MessageToken, Noted, OpenedBook, OutputList,
};
use rows::{Actor, ClientId, Refusal, ServerId};
use std::alloc::Global;
use std::marker::Brand;
use std::test::*;

// Servers, clients, and the number of the refusal that opening a book for them answers.
type Row = (&'static [u8], &'static [u8], Option<u8>);

const LISTS: &[Row] = &[
    (&[], &[], Some(12)),
    (&[1], &[], None),
    (&[], &[64], None),
    (&[1, 1], &[], Some(12)),
    (&[], &[1, 1], Some(12)),
    (&[1, 2, 3, 4, 5], &[1, 2, 3, 4, 5], None),
    (&[1, 2, 3, 1], &[7], Some(12)),
    (&[1, 2, 3], &[9, 7, 8, 9], Some(12)),
];

fn server(number: u8) -> Result<Actor, Refusal> {
    let id = ServerId::from_number(number).ok_or(Refusal::OutOfRange)?;
    Ok(Actor::Server(id))
}

fn client(number: u8) -> Result<Actor, Refusal> {
    let id = ClientId::from_number(number).ok_or(Refusal::OutOfRange)?;
    Ok(Actor::Client(id))
}

fn actors(alloc: Global, servers: &[u8], clients: &[u8]) -> Result<Vec<Actor>, Refusal> {
    let mut all = Vec::new(alloc);
    for number in servers {
        all.push(server(*number)?)?;
    }
    for number in clients {
        all.push(client(*number)?)?;
    }
    Ok(all)
}

fn open(alloc: Global, servers: &[u8], clients: &[u8]) -> Result<OpenedBook<u64>, Refusal> {
    OpenedBook::new(alloc, actors(alloc, servers, clients)?)
}

// Notes an input of its own that tells two actors something, and gives the token of the second.
fn tell<B: BookId>(
    alloc: Global,
    book: &Book<u64, B>,
    seat: &mut ActorSeat<u64, B>,
    other: Actor,
    to: Actor,
) -> Result<(u64, MessageToken<u64, B>), Refusal>
    requires { seat.old.notes ≡ [] }
    ensures { IfOk result (λ r. Names r.1 r.0 1 to (2 ∷ 3 ∷ [])) }
{
    let outputs = Vec::from_array(
        alloc,
        [
            (other, Vec::from_array(alloc, [1])?),
            (to, Vec::from_array(alloc, [2, 3])?),
        ],
    )?;
    let noted = Noted {
        event: ActorEvent::Own(7),
        outputs: OutputList(outputs),
    };
    let stamp = seat.note(book, &noted)?;
    Ok((stamp, seat.token(book, 1)))
}

// Takes the token in, notes the delivery that it names, which tells one actor something, and gives
// two tokens of that.
fn take<B: BookId>(
    alloc: Global,
    book: &Book<u64, B>,
    seat: &mut ActorSeat<u64, B>,
    message: (u64, MessageToken<u64, B>),
    frame: Vec<u8>,
    to: Actor,
) -> Result<(u64, (MessageToken<u64, B>, MessageToken<u64, B>)), Refusal>
    requires new { seat.old.notes ≡ [] }
    requires names { Names message.1 message.0 1 seat.old.actor frame.items }
    ensures { IfOk result (λ r. Names r.1.0 r.0 0 to (4 ∷ [])) }
{
    let (stamp, token) = message;
    let noted = Noted {
        event: ActorEvent::Delivery {
            stamp,
            place: 1,
            frame,
        },
        outputs: OutputList(Vec::from_array(alloc, [(to, Vec::from_array(alloc, [4])?)])?),
    };
    seat.take_in(book, token);
    let stamp = seat.note(book, &noted)?;
    let token = seat.token(book, 0);
    Ok((stamp, token.again(book)))
}

// Two servers' seats: the first tells the second something, which takes it and answers, and the
// first takes the answer in twice. It gives both stamps and the number of notes.
fn play<B: BookId>(
    alloc: Global,
    opened: OpenedBook<u64>,
    other: Actor,
) -> Result<Option<(u64, u64, u64)>, Refusal>
    requires { opened ≡ (B.table, B.actors) }
{
    let (book, mut seats) = opened.seats::<B>(alloc)?;
    let Some(mut two) = seats.pop() else {
        return Ok(None);
    };
    let Some(mut one) = seats.pop() else {
        return Ok(None);
    };
    if one.has_noted() || two.has_noted() {
        return Ok(None);
    }
    let message = tell(alloc, &book, &mut one, other, two.actor())?;
    let first = message.0;
    let frame = Vec::from_array(alloc, [2, 3])?;
    let (second, (token, again)) = take(alloc, &book, &mut two, message, frame, one.actor())?;
    one.take_in(&book, token);
    one.take_in(&book, again);
    seats.push(one)?;
    seats.push(two)?;
    Ok(Some((first, second, book.close(seats))))
}

#[test]
fn books_open_for_actors_that_differ(rt: HostRuntime) {
    for (number, row) in LISTS.iter().enumerate() {
        let (servers, clients, wanted) = *row;
        let refused = open(rt.alloc(), servers, clients).err();
        assert!(rt; refused.map(|e| e.number()) == wanted, "list {number}");
    }
}

#[test]
fn two_servers_note_a_message(rt: HostRuntime) -> Result<(), Fail> {
    let opened = open(rt.alloc(), &[1, 2], &[])?;
    let played = play::<Brand>(rt.alloc(), opened, client(7)?)?;
    assert!(rt; played == Some((0, 1, 2)));
    Ok(())
}
