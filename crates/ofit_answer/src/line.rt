ghost use Rattle.std.specs.Prelude.{◌≡◌};
ghost use Rattle.std.specs.List.{flat_map};
ghost use Rattle.ofit_answer.specs.ErrorText.{file_text, line_of};
ghost use Rattle.ofit_answer.specs.MessageText.{message_text};
ghost use Rattle.ofit_answer.specs.Tells.{sink, IsTold, Tells};

use crate::answer::Answer;
use crate::message::{Message, message_of};
use itoa::Buffer;
use ofit_input::Which;
use ofit_outside::Sink;

/// The name of a file in a message.
fn file_name(file: Which) -> &'static [u8]
    ensures { result.now ≡ file_text file }
{
    match file {
        Which::Table => b"data",
        Which::Pairs => b"order",
        Which::Sheet => b"sheet",
        Which::Script => b"script",
    }
}

/// Puts the pieces one after the other, up to the first that fails.
fn put_all<E: Sink>(err: &mut E, pieces: &[&[u8]])
    ensures { IsTold (sink (E.written err.old) (E.faults err.old)) (sink (E.written err.new) (E.faults err.new)) (flat_map (λ p. p.now) pieces.now) }
{
    for piece in pieces {
        if let Err(_) = err.put(piece) {
            return;
        }
    }
}

/// Puts the line of a message.
fn put_message<E: Sink>(err: &mut E, message: &Message)
    ensures { IsTold (sink (E.written err.old) (E.faults err.old)) (sink (E.written err.new) (E.faults err.new)) (line_of (message_text message.now)) }
{
    let mut digits = Buffer::new();
    match *message {
        Message::Plain(text) => {
            let pieces: [&[u8]; 3] = [b"ofit: ", text.as_bytes(), b"\n"];
            put_all(err, &pieces);
        }
        Message::AtWord(text, place) => {
            let place = digits.format(place).as_bytes();
            let pieces: [&[u8]; 5] = [b"ofit: ", text.as_bytes(), b" at word ", place, b"\n"];
            put_all(err, &pieces);
        }
        Message::OfFile(file, text) => {
            let pieces: [&[u8]; 5] = [b"ofit: ", file_name(file), b": ", text.as_bytes(), b"\n"];
            put_all(err, &pieces);
        }
        Message::OfColumn(file, text, column) => {
            let pieces: [&[u8]; 7] = [
                b"ofit: ",
                file_name(file),
                b": ",
                text.as_bytes(),
                b" ",
                column.name().as_bytes(),
                b"\n",
            ];
            put_all(err, &pieces);
        }
        Message::AtRecord(file, record, text) => {
            let pieces: [&[u8]; 7] = [
                b"ofit: ",
                file_name(file),
                b" record ",
                digits.format(record).as_bytes(),
                b": ",
                text.as_bytes(),
                b"\n",
            ];
            put_all(err, &pieces);
        }
    }
}

/// Puts the line of an answer to the error output, in pieces that take no memory, up to the first put
/// that fails. Nothing is put for a run whose whole output was written.
pub fn tell<E: Sink>(err: &mut E, answer: &Answer)
    ensures { Tells (sink (E.written err.old) (E.faults err.old)) (sink (E.written err.new) (E.faults err.new)) answer.now }
{
    if let Some(message) = message_of(answer) {
        put_message(err, &message);
    }
}
