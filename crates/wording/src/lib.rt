// A remark's sentence, written into room for any.
#![tactic(auto)]

ghost use Rattle.std.specs.Prelude.{◌+◌, ◌≤◌, ◌++◌, length};
ghost use Rattle.model.specs.declared.Remark.TheVariants.{Refused, Explained};
ghost use Rattle.model.specs.Refusals.{last_refusal, refusal_of};
ghost use Rattle.model.specs.Decimals.{decimal};
ghost use Rattle.model.specs.Sentences.{phrase, sentence};
ghost use Rattle.decimals.specs.Digits.{most_digits};
ghost use Rattle.decimals.specs.Written.{Written};
ghost use Rattle.phrases.specs.Joined.{most_phrase};

use model::{Reason, Refusal, Remark, limits};

// No sentence is longer.
pub type Room = [u8; limits::MOST_SENTENCE];

// A refusal's phrase with its place, at a position. Answers the position after them.
fn write_phrase(number: u32, place: u64, room: &mut Room, at: usize) -> usize
    requires { (1 ≤ number) × (number ≤ last_refusal) × (at + most_phrase + most_digits ≤ length room.old) }
    ensures written { Written room.old at (phrase number ++ decimal place) room.new result }
    ensures upper_bound { result ≤ at + most_phrase + most_digits }
{
    let table = phrases::phrases();
    let phrase = phrases::phrase_of(&table, number);
    decimals::write_labelled(room, at, phrase, place)
}

// The sentence of the refusal with a number and a place. Answers how many bytes it has.
fn write_numbered(number: u32, place: u64, room: &mut Room) -> usize
    requires { (1 ≤ number) × (number ≤ last_refusal) }
    ensures { Written room.old 0 (sentence (Refused (refusal_of number place))) room.new result }
{
    let numbered = decimals::write_labelled(room, 0, b"Refused ", number as u64);
    let behind = decimals::write_text(room, numbered, b": ");
    let placed = write_phrase(number, place, room, behind);
    decimals::write_text(room, placed, b".")
}

// A refusal's sentence.
fn write_refusal(refusal: Refusal, room: &mut Room) -> usize
    ensures { Written room.old 0 (sentence (Refused refusal)) room.new result }
{
    let number = refusal.number();
    let place = refusal.place();
    write_numbered(number, place, room)
}

// A reason's sentence.
fn write_reason(reason: Reason, room: &mut Room) -> usize
    ensures { Written room.old 0 (sentence (Explained reason)) room.new result }
{
    match reason {
        Reason::EveryVisit(function) => {
            let named = decimals::write_labelled(
                room,
                0,
                b"Every visit is charged the load, since its region may have been taken by function ",
                function as u64,
            );
            decimals::write_text(room, named, b".")
        }
        Reason::FirstLoad => decimals::write_text(
            room,
            0,
            b"Only a first load is charged, since no other function can have taken its region.",
        ),
        Reason::Never => decimals::write_text(
            room,
            0,
            b"No load is charged, since its function is always in its region.",
        ),
    }
}

// A remark's sentence, at the front of the room. Answers how many bytes it has.
pub fn write_remark(remark: Remark, room: &mut Room) -> usize
    ensures { Written room.old 0 (sentence remark) room.new result }
{
    match remark {
        Remark::Refused(refusal) => write_refusal(refusal, room),
        Remark::Explained(reason) => write_reason(reason, room),
    }
}
