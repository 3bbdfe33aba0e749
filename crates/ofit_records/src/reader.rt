ghost use Rattle.std.specs.Prelude.{◌≡◌, ◌∷◌, ◌+◌, ◌≤◌, [], IfOk, OnErr, length, true, false};
ghost use Rattle.csv.specs.Records.{fields_of};
ghost use Rattle.ofit_records.specs.Coming.{coming, IsAtRecord};
ghost use Rattle.ofit_records.specs.Records.{records_of};

use crate::marks::after_marks;
use csv::{ByteRecord, Reader, ReaderBuilder};
use std::alloc::{AllocError, Global};
use std::marker::Model;

/// A reader of the records of bytes in memory. csv's reader holds a buffer of 8 KiB by value, so it stands
/// behind one allocation.
pub struct Records<'a> {
    reader: Box<Reader<&'a [u8]>>,
}

/// Written out, so that a proof meets one call where a value is let go.
impl Drop for Records<'_> {
    fn drop(self) {
        let Records { reader } = self;
        drop(reader);
    }
}

impl<'a> Model for Records<'a> {
    ghost use Rattle.std.specs.Prelude.{ℕ, List, box_value};
    ghost use Rattle.ofit_records.specs.Coming.{coming, IsAtRecord};

    ghost Value = { List (List (List ℕ)) };

    ghost view = { λ r. coming (box_value r.reader) };

    ghost invariant = { λ r. IsAtRecord (box_value r.reader) };
}

/// Reads a record of bytes in memory with csv, and whether there is one.
fn read_one(reader: &mut Reader<&[u8]>, into: &mut ByteRecord) -> Result<bool, AllocError>
    requires { IsAtRecord reader.old }
    ensures at { IsAtRecord reader.new }
    ensures more { IfOk result (λ found. found ≡ true → coming reader.old ≡ fields_of into.new ∷ coming reader.new) }
    ensures end { IfOk result (λ found. found ≡ false → coming reader.old ≡ []) }
    ensures failed { OnErr result (coming reader.new ≡ []) }
{
    match reader.read_byte_record(into) {
        Ok(found) => Ok(found),
        Err(_) => Err(AllocError),
    }
}

impl<'a> Records<'a> {
    /// A reader of all records of the bytes, behind the byte order marks at their front. There is at
    /// most one record more than bytes.
    #[inline(never)]
    pub fn new(alloc: Global, bytes: &'a [u8]) -> Result<Records<'a>, AllocError>
        ensures records { IfOk result (λ records. records ≡ records_of bytes.now) }
        ensures count { IfOk result (λ records. length records ≤ length bytes.now + 1) }
    {
        let reader = ReaderBuilder::new()
            .has_headers(false)
            .flexible(true)
            .from_reader(alloc, after_marks(bytes));
        Ok(Records {
            reader: Box::new(alloc, reader)?,
        })
    }

    /// The next record, and whether there is one. Any error of csv over bytes in memory is answered as
    /// want of memory, behind which no record comes.
    pub fn read_next(&mut self, into: &mut ByteRecord) -> Result<bool, AllocError>
        ensures more { IfOk result (λ found. found ≡ true → self.old ≡ fields_of into.new ∷ self.new) }
        ensures end { IfOk result (λ found. found ≡ false → self.old ≡ []) }
        ensures failed { OnErr result (self.new ≡ []) }
    {
        read_one(&mut self.reader, into)
    }
}
