ghost use Rattle.std.specs.Prelude.{◌≡◌, Some, None, MatchOption};
ghost use Rattle.ofit_answer.specs.ErrorText.{line_of, words_text, data_text, order_text, sheet_text, script_text, refusal_text, error_line};
ghost use Rattle.ofit_answer.specs.MessageText.{message_text};

use crate::answer::Answer;
use ofit_input::{Refusal, Which};
use ofit_script::ScriptFault;
use ofit_sheet::SheetFault;
use ofit_table::{Column, DataFault, OrderFault};
use ofit_words::WordFault;

/// A text for the error output.
#[derive(Clone, Copy)]
pub(crate) enum Message {
    /// The words alone.
    Plain(&'static str),
    /// What is wrong with the word of this number.
    AtWord(&'static str, u32),
    /// What is wrong with a file.
    OfFile(Which, &'static str),
    /// What is wrong with a column of a file.
    OfColumn(Which, &'static str, Column),
    /// What is wrong with the record of this number.
    AtRecord(Which, u32, &'static str),
}

/// The text of a fault of the words.
fn word_message(fault: WordFault) -> Message
    ensures { message_text result ≡ words_text fault }
{
    match fault {
        WordFault::NoCommand => Message::Plain("no command"),
        WordFault::UnknownCommand => Message::Plain("unknown command"),
        WordFault::MissingName => Message::Plain("names missing"),
        WordFault::LevelOutOfRange => Message::Plain("level out of range"),
        WordFault::UnknownSetting(place) => Message::AtWord("unknown setting", place),
        WordFault::RepeatedSetting(place) => Message::AtWord("repeated setting", place),
        WordFault::BadSetting(place) => Message::AtWord("bad setting", place),
        WordFault::BoundsCross => Message::Plain("bounds cross"),
        WordFault::Memory => Message::Plain("out of memory"),
    }
}

/// The text of a fault of the data file.
fn data_message(fault: DataFault) -> Message
    ensures { message_text result ≡ data_text fault }
{
    let file = Which::Table;
    match fault {
        DataFault::NoHeader => Message::OfFile(file, "no header"),
        DataFault::NoColumn(column) => Message::OfColumn(file, "no column", column),
        DataFault::ColumnTwice(column) => Message::OfColumn(file, "column twice", column),
        DataFault::FieldMissing(record) => Message::AtRecord(file, record, "field missing"),
        DataFault::NotName(record) => Message::AtRecord(file, record, "not a name"),
        DataFault::NotNumber(record) => Message::AtRecord(file, record, "not a number"),
        DataFault::TooFine(record) => Message::AtRecord(file, record, "too many decimals"),
        DataFault::TooLarge(record) => Message::AtRecord(file, record, "number too large"),
        DataFault::BadWeight(record) => Message::AtRecord(file, record, "bad weight"),
        DataFault::TooManyRows(record) => Message::AtRecord(file, record, "too many rows"),
        DataFault::TooHeavy(record) => Message::AtRecord(file, record, "total weight too large"),
        DataFault::TooManyGroups(record) => Message::AtRecord(file, record, "too many groups"),
        DataFault::Memory => Message::Plain("out of memory"),
    }
}

/// The text of a fault of the order.
fn order_message(fault: OrderFault) -> Message
    ensures { message_text result ≡ order_text fault }
{
    let file = Which::Pairs;
    match fault {
        OrderFault::NoHeader => Message::OfFile(file, "no header"),
        OrderFault::NoColumn(column) => Message::OfColumn(file, "no column", column),
        OrderFault::ColumnTwice(column) => Message::OfColumn(file, "column twice", column),
        OrderFault::FieldMissing(record) => Message::AtRecord(file, record, "field missing"),
        OrderFault::UnknownGroup(record) => Message::AtRecord(file, record, "unknown group"),
        OrderFault::TooManyPairs(record) => Message::AtRecord(file, record, "too many pairs"),
        OrderFault::NoGroup => Message::OfFile(file, "no such group"),
        OrderFault::Memory => Message::Plain("out of memory"),
    }
}

/// The text of a fault of the sheet.
fn sheet_message(fault: SheetFault) -> Message
    ensures { message_text result ≡ sheet_text fault }
{
    let file = Which::Sheet;
    match fault {
        SheetFault::BadHeader => Message::OfFile(file, "bad header"),
        SheetFault::BadRecord(record) => Message::AtRecord(file, record, "bad record"),
        SheetFault::NumberTooLarge(record) => Message::AtRecord(file, record, "number too large"),
        SheetFault::NoEnd => Message::OfFile(file, "no end"),
        SheetFault::AfterEnd(record) => Message::AtRecord(file, record, "record after the end"),
        SheetFault::Memory => Message::Plain("out of memory"),
    }
}

/// The text of a fault of the script.
fn script_message(fault: ScriptFault) -> Message
    ensures { message_text result ≡ script_text fault }
{
    let file = Which::Script;
    match fault {
        ScriptFault::TooManyLines(record) => Message::AtRecord(file, record, "too many lines"),
        ScriptFault::TooManyPrints(record) => Message::AtRecord(file, record, "too many reports"),
        ScriptFault::UnknownLine(record) => Message::AtRecord(file, record, "unknown line"),
        ScriptFault::FieldCount(record) => Message::AtRecord(
            file,
            record,
            "wrong number of fields",
        ),
        ScriptFault::NotName(record) => Message::AtRecord(file, record, "not a name"),
        ScriptFault::BadRow(record) => Message::AtRecord(file, record, "bad row number"),
        ScriptFault::NotNumber(record) => Message::AtRecord(file, record, "not a number"),
        ScriptFault::TooFine(record) => Message::AtRecord(file, record, "too many decimals"),
        ScriptFault::TooLarge(record) => Message::AtRecord(file, record, "number too large"),
        ScriptFault::BadWeight(record) => Message::AtRecord(file, record, "bad weight"),
        ScriptFault::Memory => Message::Plain("out of memory"),
    }
}

/// The text of a refusal.
fn refusal_message(refusal: Refusal) -> Message
    ensures { message_text result ≡ refusal_text refusal }
{
    match refusal {
        Refusal::FileMissing(file) => Message::OfFile(file, "no such file"),
        Refusal::FileLong(file) => Message::OfFile(file, "file too long"),
        Refusal::Table(fault) => data_message(fault),
        Refusal::Pairs(fault) => order_message(fault),
        Refusal::Sheet(fault) => sheet_message(fault),
        Refusal::Script(fault) => script_message(fault),
        Refusal::TooManyForPeak => Message::Plain("too many groups for an unknown peak"),
    }
}

/// The text of an answer. None where the error output gets nothing.
pub(crate) fn message_of(answer: &Answer) -> Option<Message>
    ensures { MatchOption result (error_line answer.now ≡ None)
        (λ message. error_line answer.now ≡ Some (line_of (message_text message))) }
{
    match *answer {
        Answer::Done | Answer::Fails(_) | Answer::FailsPeak(_) => None,
        Answer::Words(fault) => Some(word_message(fault)),
        Answer::Refused(refusal) => Some(refusal_message(refusal)),
        Answer::ReadFault => Some(Message::Plain("read fault")),
        Answer::WriteFault => Some(Message::Plain("write fault")),
        Answer::Memory => Some(Message::Plain("out of memory")),
    }
}
