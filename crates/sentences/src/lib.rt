// **Word** and **Read-sentence**: a remark as its sentence, and a sentence as the remark it came from.
#![tactic(auto)]

ghost use Rattle.std.specs.Prelude.{◌≡◌, length};
ghost use Rattle.model.specs.Sentences.{judge_remark, judge_room, word_remark, worded_buffer, ReadsAs};
ghost use Rattle.model.specs.Outcomes.{word_outcome, word_says, sentence_outcome, Understood};

use model::{Reason, Refusal, Remark, limits, places};

mod reading;

// 3: a reason that names a function above 31. No place of 64 bits is out of range.
fn judge_remark(remark: Remark) -> Result<(), Refusal>
    ensures { result ≡ judge_remark remark }
{
    match remark {
        Remark::Explained(Reason::EveryVisit(function)) if places::MOST_FUNCTIONS <= function =>
            Err(Refusal::OutOfRange(0)),
        _ => Ok(()),
    }
}

// 10: a text buffer that is too short.
fn judge_room(need: usize, room: usize) -> Result<(), Refusal>
    ensures { result ≡ judge_room need room }
{
    if room < need {
        return Err(Refusal::BufferTooShort(need as u64));
    }
    Ok(())
}

// **Word.** Writes the sentence at the front of the buffer, or refuses and leaves the buffer as it is. The sentence is made first, since 10 tells its length.
#[tactic(auto, unfolding(model::specs::Sentences::word_remark))]
pub fn word(remark: Remark, text: &mut [u8]) -> Result<usize, Refusal>
    ensures value { result ≡ word_remark remark (length text.old) }
    ensures text_after { text.new ≡ worded_buffer remark text.old }
    ensures outcome { word_outcome result ≡ word_says remark (length text.old) }
{
    let mut room = [0u8; limits::MOST_SENTENCE];
    let need = wording::write_remark(remark, &mut room);
    judge_remark(remark)?;
    judge_room(need, text.len())?;
    decimals::write_text(text, 0, &room[..need]);
    Ok(need)
}

// **Read-sentence.** The remark whose sentence the text is, to the last byte; or 22, at the first byte that fits no continuation, or at the length. The first
// byte tells the opening.
#[tactic(auto, using(crate::proofs::Openings::openings), unfolding(model::specs::Decimals::text))]
pub fn read_sentence(text: &[u8]) -> Result<Remark, Refusal>
    ensures reads_as { ReadsAs text.now result }
    ensures understood { Understood text.now (sentence_outcome result) }
{
    if text.len() == 0 {
        return reading::no_sentence(0);
    }
    let first = text[0];
    match first {
        b'R' => reading::read_refusal(text),
        b'E' => reading::read_visit(text),
        b'O' => reading::read_end(
            text,
            0,
            b"Only a first load is charged, since no other function can have taken its region.",
            Remark::Explained(Reason::FirstLoad),
        ),
        b'N' => reading::read_end(
            text,
            0,
            b"No load is charged, since its function is always in its region.",
            Remark::Explained(Reason::Never),
        ),
        _ => reading::no_sentence(0),
    }
}
