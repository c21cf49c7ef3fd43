// A batch of questions: its own refusals, the image's, then the questions one by one.
ghost use Rattle.std.specs.Prelude.{◌≡◌, ◌+◌, ◌/◌, ◌%◌, ◌≤◌, ◌<◌, length, Ok, Err, MatchResult};
ghost use Rattle.format.specs.Lists.{bit, over};
ghost use Rattle.format.specs.Question.{says};
ghost use Rattle.format.specs.Answers.{answer_numbers};
ghost use Rattle.format.specs.Batch.{three_words, good, batch_outcome, batch_leaves, TallyRoom};
ghost use Rattle.little.specs.Put.{put_at};
ghost use Rattle.asking.specs.BatchSteps.{replies, reply_at, good_one, answer_words, Roomy, counted};

use crate::question::answer;
use format::{Answer, Refusal, Tally, code};
use trits::image::Image;

// What a batch answers, and what becomes of the tally: both, since a refused batch keeps its tally.
#[derive(Clone, Copy)]
pub struct Batched {
    pub asked: Result<(), Refusal>,
    pub tally: Tally,
}

// The same, with the answer as the number that the C entry gives.
#[derive(Clone, Copy)]
pub struct Done {
    pub code: u32,
    pub tally: Tally,
}

// ---- one question

// Puts three words from `at` on: numbers, as the answer buffer holds them. The place stays beside the buffer, since a part of it would be put back
// in every proof above.
fn put_three(answers: &mut [u32], at: usize, code: u32, value: u32, sort: u32)
    requires { at + 2 < length answers.old }
    ensures { answers.new ≡ put_at answers.old at (three_words (says code value sort)) }
{
    answers[at] = code;
    answers[at + 1] = value;
    answers[at + 2] = sort;
}

// Puts an answer's words, code, value and sort, from `at` on.
fn put_answer(answers: &mut [u32], at: usize, answer: Result<Answer, Refusal>)
    requires { at + 2 < length answers.old }
    ensures { answers.new ≡ put_at answers.old at (three_words (answer_numbers answer)) }
{
    match answer {
        Ok(Answer::Value(v)) => put_three(answers, at, 0, v, 0),
        Ok(Answer::Listed(n)) => put_three(answers, at, 0, n.node, u32::from(n.sort)),
        Err(f) => put_three(answers, at, u32::from(f), 0, 0),
    }
}

// Answers the question of the first three words, and puts the answer from `at` on: whether its code is 0.
fn ask_one(image: &Image, question: &[u32], answers: &mut [u32], at: usize) -> bool
    requires { (2 < length question.now) × (at + 2 < length answers.old) }
    ensures { (bit result ≡ good_one (reply_at image.now.bytes.now question.now 0))
        × (answers.new ≡ put_at answers.old at (three_words (reply_at image.now.bytes.now question.now 0))) }
{
    let found = answer(image, question[0], question[1], question[2]);
    put_answer(answers, at, found);
    found.is_ok()
}

// ---- all of them

// Answers the questions in order, and counts the answers of code 0.
fn ask_all(image: &Image, questions: &[u32], answers: &mut [u32]) -> usize
    requires { (length questions.now % 3 ≡ 0) × (length questions.now ≤ length answers.old) }
    ensures { (result ≡ good (replies image.now.bytes.now questions.now))
        × (answers.new ≡ over (answer_words (replies image.now.bytes.now questions.now)) answers.old) }
{
    let mut found = 0;
    for (i, question) in questions.chunks_exact(3).enumerate() {
        found += usize::from(ask_one(image, question, answers, 3 * i));
    }
    found
}

// ---- the tally

// Whether every field has room for `q` more.
fn roomy(tally: Tally, q: usize) -> bool
    ensures { Roomy result tally q }
{
    q <= (u32::MAX - tally.asked) as usize
        && q <= (u32::MAX - tally.answered) as usize
        && q <= (u32::MAX - tally.refused) as usize
}

// Counts `q` questions more, of which `found` have code 0.
fn count(tally: Tally, q: usize, found: usize) -> Tally
    requires { TallyRoom tally q × (found ≤ q) }
    ensures { result ≡ counted tally q found }
{
    Tally {
        asked: tally.asked + q as u32,
        answered: tally.answered + found as u32,
        refused: tally.refused + (q - found) as u32,
    }
}

// ---- the batch

// What a batch leaves in the tally: its own refusals, then the image's, then the questions.
fn run(image: &[u8], questions: &[u32], answers: &mut [u32], tally: Tally) -> Result<Tally, Refusal>
    ensures { MatchResult result (λ after. batch_outcome image.now questions.now answers.old tally ≡ batch_leaves (Ok tt) answers.new after)
        (λ f. batch_outcome image.now questions.now answers.old tally ≡ batch_leaves (Err f) answers.new tally) }
{
    if questions.len() % 3 != 0 {
        return Err(Refusal::NotThrees);
    }
    if answers.len() < questions.len() {
        return Err(Refusal::AnswersTooShort);
    }
    let q = questions.len() / 3;
    if !roomy(tally, q) {
        return Err(Refusal::TallyFull);
    }
    let image = proper::check::examine(image)?;
    let found = ask_all(&image, questions, answers);
    Ok(count(tally, q, found))
}

// A batch of questions, with the tally by value.
pub fn batch(image: &[u8], questions: &[u32], answers: &mut [u32], tally: Tally) -> Batched
    ensures { batch_outcome image.now questions.now answers.old tally
        ≡ batch_leaves result.asked answers.new result.tally }
{
    match run(image, questions, answers, tally) {
        Ok(after) => Batched {
            asked: Ok(()),
            tally: after,
        },
        Err(f) => Batched {
            asked: Err(f),
            tally,
        },
    }
}

// A batch, answered by a number: 0, or a refusal from 41 to 43 or 21 to 26.
pub fn ask(image: &[u8], questions: &[u32], answers: &mut [u32], tally: Tally) -> Done
    ensures { batch_outcome image.now questions.now answers.old tally
        ≡ record { code = result.code; words = answers.new; tally = result.tally } }
{
    let done = batch(image, questions, answers, tally);
    Done {
        code: code(done.asked),
        tally: done.tally,
    }
}
