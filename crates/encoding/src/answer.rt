// What an editing call answers is written to the slices that are lent for it, and its status returned.
ghost use Rattle.std.specs.Prelude.{◌≡◌, ◌≤◌, length};
ghost use Rattle.model.specs.Refusals.{number_of};
ghost use Rattle.encoding.specs.Given.{status_of, given_to, done_record, made_record, made_words, found_record, found_words};

use crate::numbers::give;
use crate::record::{put_record, truth_word, words_of};
use edits::born::NewNode;
use layout::Document;
use model::Refusal;

// The status of a refusal is its number.
pub fn refused(why: Refusal) -> u64
    ensures { result ≡ number_of why }
{
    u8::from(why) as u64
}

// Of Start, and of the calls that make and find nothing.
pub fn give_done(document: &mut [u64], answer: Result<Document, Refusal>) -> u64
    requires { 19 ≤ length document.old }
    ensures value { result ≡ status_of (done_record answer) }
    ensures document_after { document.new ≡ given_to document.old (done_record answer) }
{
    match answer {
        Ok(d) => {
            put_record(document, d);
            0
        }
        Err(why) => refused(why),
    }
}

pub fn give_made(document: &mut [u64], made: &mut [u64], answer: Result<NewNode, Refusal>) -> u64
    requires { (19 ≤ length document.old) × (1 ≤ length made.old) }
    ensures value { result ≡ status_of (made_words answer) }
    ensures document_after { (document.new ≡ given_to document.old (made_record answer)) × (made.new ≡ given_to made.old (made_words answer)) }
{
    match answer {
        Ok(new) => {
            let id = new.id;
            put_record(document, new.document);
            made[0] = u64::from(id);
            0
        }
        Err(why) => refused(why),
    }
}

pub fn give_found(
    document: &mut [u64],
    found: &mut [u64],
    answer: Result<(Document, bool), Refusal>,
) -> u64
    requires { (19 ≤ length document.old) × (1 ≤ length found.old) }
    ensures value { result ≡ status_of (found_words answer) }
    ensures document_after { (document.new ≡ given_to document.old (found_record answer)) × (found.new ≡ given_to found.old (found_words answer)) }
{
    match answer {
        Ok((d, t)) => {
            put_record(document, d);
            found[0] = truth_word(t);
            0
        }
        Err(why) => refused(why),
    }
}
