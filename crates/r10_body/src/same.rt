//! Whether entries are the same. The derived `==` ensures an equality of its own, part by part. That this is to be the same would
//! be a lemma with the cases of the table here, so the table stands in the code, where a contract says so.

ghost use Rattle.std.specs.Prelude.{◌≡◌, ◌↔◌, IsTrue, take};

use crate::entry::Entry;
use crate::message::Message;

/// Whether two lists have the same entries in the same order.
pub fn are_same(some: &[Entry], others: &[Entry]) -> bool
    ensures { IsTrue result ↔ (some.now ≡ others.now) }
{
    if some.len() != others.len() {
        return false;
    }
    for place in 0..some.len() {
        if !is_same(&some[place], &others[place]) {
            return false;
        }
    }
    true
}

/// Whether two entries are the same.
fn is_same(one: &Entry, other: &Entry) -> bool
    ensures { IsTrue result ↔ (one.now ≡ other.now) }
{
    one.channel == other.channel
        && one.count == other.count
        && one.gap == other.gap
        && is_same_message(&one.message, &other.message)
}

/// Whether two messages are the same.
fn is_same_message(one: &Message, other: &Message) -> bool
    ensures { IsTrue result ↔ (one.now ≡ other.now) }
{
    match (one, other) {
        (Message::Uart(one), Message::Uart(other)) => one.is_same(other),
        (Message::Bus1553(one), Message::Bus1553(other)) => one.is_same(other),
        (Message::Arinc(one), Message::Arinc(other)) => one.is_same(other),
        (Message::Discrete(one), Message::Discrete(other)) => one.is_same(other),
        (Message::Message(one), Message::Message(other)) => one.is_same(other),
        (Message::Time { civil }, Message::Time { civil: civil_too }) => *civil == *civil_too,
        (
            Message::Event { number, count },
            Message::Event {
                number: number_too,
                count: count_too,
            },
        ) => number == number_too && count == count_too,
        _ => false,
    }
}
