use csv::ByteRecord;
use ofit_records::{RecordWriter, Records, field_of};
use std::alloc::{AllocError, Global};
use std::test::Fail;

/// The records of the bytes, each as its fields joined by `|`, with `;` behind each record.
fn shown(alloc: Global, bytes: &[u8]) -> Result<Vec<u8>, AllocError> {
    let mut text = Vec::new(alloc);
    let mut records = Records::new(alloc, bytes)?;
    let mut record = ByteRecord::new(alloc);
    while records.read_next(&mut record)? {
        for i in 0..record.len() {
            if i > 0 {
                text.push(b'|')?;
            }
            if let Some(field) = field_of(&record, i) {
                text.extend_from_slice(field)?;
            }
        }
        text.push(b';')?;
    }
    Ok(text)
}

#[test]
fn records_are_read(rt: HostRuntime) -> Result<(), Fail> {
    let cases: [(&[u8], &[u8]); 10] = [
        (b"", b""),
        (b"\n\r\n", b""),
        (b"a,b\nc\n", b"a|b;c;"),
        (b"a,b\r\nc,", b"a|b;c|;"),
        (b" a , b \n", b" a | b ;"),
        (b"\"a,\"\"b\n\",c\n", b"a,\"b\n|c;"),
        (b"\xEF\xBB\xBF\"a\",b\n", b"a|b;"),
        (b"\xEF\xBB\xBF\xEF\xBB\xBFa\n", b"a;"),
        (b"\xEF\xBB\xBF", b""),
        (
            b"a\xEF\xBB\xBF\n\xEF\xBB\xBFb\n",
            b"a\xEF\xBB\xBF;\xEF\xBB\xBFb;",
        ),
    ];
    for (bytes, want) in cases {
        assert_eq!(rt; shown(rt.alloc(), bytes)?.as_slice(), want);
    }
    Ok(())
}

#[test]
fn written_records_have_a_text(rt: HostRuntime) -> Result<(), Fail> {
    let first: [&[u8]; 3] = [b"ofit-sheet", b"2", b"-"];
    let second: [&[u8]; 2] = [b"Low, \"dose\"", b"1"];
    let mut writer = RecordWriter::new(rt.alloc())?;
    writer.add_record(&first)?;
    writer.add_record(&second)?;
    let text = writer.into_text()?;
    assert_eq!(rt;
        text.as_slice(),
        b"ofit-sheet,2,-\n\"Low, \"\"dose\"\"\",1\n".as_slice()
    );
    assert_eq!(rt;
        shown(rt.alloc(), text.as_slice())?.as_slice(),
        b"ofit-sheet|2|-;Low, \"dose\"|1;".as_slice()
    );
    Ok(())
}
