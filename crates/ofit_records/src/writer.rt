ghost use Rattle.std.specs.Prelude.{◌≡◌, ◌++◌, [], IfOk, OnOk, IsTrue, map};
ghost use Rattle.ofit_records.specs.Written.{record_text};
ghost use Rattle.ofit_records.specs.Writing.{text_given, IsBetweenRecords};

use csv::{Writer, WriterBuilder};
use std::alloc::{AllocError, Global};
use std::marker::Model;

/// A writer of records into memory, seen as the text that it was given. After want of memory it takes no
/// more records and gives no text. csv's writer holds a buffer of 8 KiB by value, so it stands behind
/// one allocation.
pub struct RecordWriter {
    writer: Box<Writer<Vec<u8>>>,
    has_failed: bool,
}

/// Written out, so that a proof meets one call where a value is let go.
impl Drop for RecordWriter {
    fn drop(self) {
        let RecordWriter {
            writer,
            has_failed: _,
        } = self;
        drop(writer);
    }
}

impl Model for RecordWriter {
    ghost use Rattle.std.specs.Prelude.{◌≡◌, ℕ, List, false, box_value};
    ghost use Rattle.ofit_records.specs.Writing.{text_unless, IsBetweenRecords};

    ghost Value = { List ℕ };

    ghost view = { λ w. text_unless w.has_failed (box_value w.writer) };

    ghost invariant = { λ w. w.has_failed ≡ false → IsBetweenRecords (box_value w.writer) };
}

/// Whether csv writes the record.
fn writes(writer: &mut Writer<Vec<u8>>, fields: &[&[u8]]) -> bool
    requires { IsBetweenRecords writer.old }
    ensures between { IsTrue result → IsBetweenRecords writer.new }
    ensures text { IsTrue result → text_given writer.new ≡ text_given writer.old ++ record_text (map (λ f. f.now) fields.now) }
{
    writer.write_fields(fields).is_ok()
}

impl RecordWriter {
    /// A writer that was given nothing.
    #[inline(never)]
    pub fn new(alloc: Global) -> Result<RecordWriter, AllocError>
        ensures { IfOk result (λ writer. writer ≡ []) }
    {
        let writer = WriterBuilder::new()
            .flexible(true)
            .from_writer(Vec::new(alloc));
        Ok(RecordWriter {
            writer: Box::new(alloc, writer)?,
            has_failed: false,
        })
    }

    /// Writes a record more. Any error of csv over bytes in memory is answered as want of memory.
    pub fn add_record(&mut self, fields: &[&[u8]]) -> Result<(), AllocError>
        ensures { OnOk result (self.new ≡ self.old ++ record_text (map (λ f. f.now) fields.now)) }
    {
        if self.has_failed {
            return Err(AllocError);
        }
        if writes(&mut self.writer, fields) {
            return Ok(());
        }
        self.has_failed = true;
        Err(AllocError)
    }

    /// The text that the writer was given.
    #[inline(never)]
    pub fn into_text(self) -> Result<Vec<u8>, AllocError>
        ensures { IfOk result (λ text. text.items ≡ self) }
    {
        let RecordWriter { writer, has_failed } = self;
        if has_failed {
            return Err(AllocError);
        }
        match Box::into_inner(writer).into_inner() {
            Ok(text) => Ok(text),
            Err(_) => Err(AllocError),
        }
    }
}
