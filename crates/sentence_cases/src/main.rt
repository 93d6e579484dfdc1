// The worked cases of request 8/14: every sentence once, Word's refusals, and texts with what they read as.
#![tactic(auto)]

use model::{Reason, Refusal, Remark, limits};
use std::io;
use std::io::Write;

mod show;

fn refusals_of_files(out: &mut impl Write) -> io::Result<()> {
    show::refusal(out, Refusal::EndsEarly(18))?;
    show::refusal(out, Refusal::Misspelt(18))?;
    show::refusal(out, Refusal::OutOfRange(18))?;
    show::refusal(out, Refusal::NotAscending(18))?;
    show::refusal(out, Refusal::LeftOver(18))?;
    show::refusal(out, Refusal::MissingEdge(18))?;
    show::refusal(out, Refusal::WrongLoop(18))?;
    show::refusal(out, Refusal::WrongEdge(18))?;
    show::refusal(out, Refusal::NoEdgeBack(18))?;
    show::refusal(out, Refusal::BufferTooShort(18))
}

fn other_refusals(out: &mut impl Write) -> io::Result<()> {
    show::refusal(out, Refusal::LayoutTooLong(18))?;
    show::refusal(out, Refusal::UnknownRegion(18))?;
    show::refusal(out, Refusal::ScratchpadTooSmall(18))?;
    show::refusal(out, Refusal::BoundTooLarge(0))?;
    show::refusal(out, Refusal::WrongStep(limits::MOST_PLACE))?;
    show::refusal(out, Refusal::BeyondBound(18))?;
    show::refusal(out, Refusal::WalkTooLong(1_000_000))?;
    show::refusal(out, Refusal::Recursive(18))?;
    show::refusal(out, Refusal::CountPassed(0))?;
    show::refusal(out, Refusal::LastCalls(18))?;
    show::refusal(out, Refusal::UnknownVertex(18))?;
    show::refusal(out, Refusal::NoSentence(18))
}

fn reasons(out: &mut impl Write) -> io::Result<()> {
    show::reason(out, Reason::EveryVisit(5))?;
    show::reason(out, Reason::FirstLoad)?;
    show::reason(out, Reason::Never)
}

// A function above 31, also where the room is too short; and rooms of one byte less, of the exact length and of none.
fn refused_words(out: &mut impl Write) -> io::Result<()> {
    let mut room = [0u8; limits::MOST_SENTENCE];
    let mut none = [0u8; 0];
    let mut less = [0u8; 78];
    let mut exact = [0u8; 79];
    let example = Remark::Refused(Refusal::ScratchpadTooSmall(18));
    show::worded(out, Remark::Explained(Reason::EveryVisit(31)), &mut room)?;
    show::worded(out, Remark::Explained(Reason::EveryVisit(32)), &mut room)?;
    show::worded(out, Remark::Explained(Reason::EveryVisit(32)), &mut none)?;
    show::worded(out, Remark::Explained(Reason::Never), &mut none)?;
    show::worded(out, example, &mut less)?;
    show::worded(out, example, &mut exact)
}

// The worked table.
fn cut_texts(out: &mut impl Write) -> io::Result<()> {
    show::read(out, b"")?;
    show::read(out, b"refused 1")?;
    show::read(out, b"Refused 0")?;
    show::read(out, b"Refused 3")?;
    show::read(out, b"Refused 23")?;
    show::read(
        out,
        b"Refused 3: a number is out of range; its place is 18446744073709551615.",
    )?;
    show::read(
        out,
        b"Refused 3: a number is out of range; its place is 18446744073709551616.",
    )?;
    show::read(out, b"Refused 3: a number is out of range; its place is 0")?;
    show::read(
        out,
        b"Refused 14: the bound passes its limit; its place is 00.",
    )?;
    show::read(
        out,
        b"Every visit is charged the load, since its region may have been taken by function 32.",
    )?;
    show::read(
        out,
        b"Every visit is charged the load, since its region may have been taken by function 4",
    )?;
    show::read(
        out,
        b"Every visit is charged the load, since its region may have been taken by function 40.",
    )
}

fn whole_texts(out: &mut impl Write) -> io::Result<()> {
    show::read(
        out,
        b"Refused 13: the layout needs more than the scratchpad; the bytes needed are 18.",
    )?;
    show::read(
        out,
        b"Refused 13: the layout needs more than the scratchpad; the bytes needed are 18.\n",
    )?;
    show::read(
        out,
        b"Refused 12: the layout needs more than the scratchpad; the bytes needed are 18.",
    )?;
    show::read(
        out,
        b"Every visit is charged the load, since its region may have been taken by function 5.",
    )?;
    show::read(
        out,
        b"Only a first load is charged, since no other function can have taken its region.",
    )?;
    show::read(
        out,
        b"No load is charged, since its function is always in its region.",
    )?;
    show::read(
        out,
        b"No load is charged, since its function is always in its region",
    )?;
    show::read(
        out,
        b"No load is charged, since its function is always in its region..",
    )
}

fn main(rt: HostRuntime) -> io::Result<()> {
    let mut out = io::writer(&rt);
    refusals_of_files(&mut out)?;
    other_refusals(&mut out)?;
    reasons(&mut out)?;
    refused_words(&mut out)?;
    cut_texts(&mut out)?;
    whole_texts(&mut out)
}
