use ofit_outside::{DiskFolder, FetchFault, Folder, PutFault, Sink, StdSink};
use std::alloc::Global;
use std::fs::File;
use std::io::{ErrorKind, Write};
use std::rt::Files;
use std::test::Fail;
use std::{fs, io};

// Over one piece that is read at once.
const LENGTH: usize = 5000;

/// Whether the bytes under the name are these.
fn is_fetched(alloc: Global, rt: &impl Files, name: &str, text: &[u8]) -> bool {
    match DiskFolder::new(rt).fetch(alloc, name, 5000) {
        Ok(bytes) => bytes.as_slice() == text,
        Err(_) => false,
    }
}

/// Why nothing is fetched.
fn fault(alloc: Global, rt: &impl Files, name: &str) -> Option<FetchFault> {
    DiskFolder::new(rt).fetch(alloc, name, 4999).err()
}

#[test]
fn a_disk_gives_what_was_written(rt: HostRuntime) -> Result<(), Fail> {
    let text = [b'x'; LENGTH];
    fs::write(&rt, "ofit_fetched.txt", &text)?;
    assert!(rt; is_fetched(rt.alloc(), &rt, "ofit_fetched.txt", &text));
    // A folder can be opened and not read.
    for (name, wanted) in [
        ("ofit_fetched.txt", FetchFault::Long),
        ("ofit_missing.txt", FetchFault::Missing),
        (".", FetchFault::Failed),
    ] {
        assert_eq!(rt; fault(rt.alloc(), &rt, name), Some(wanted));
    }
    fs::remove_file(&rt, "ofit_fetched.txt")?;
    Ok(())
}

/// A file that takes two bytes at a time until it takes none, and is interrupted once.
#[derive(Drop)]
struct Narrow {
    file: File,
    left: usize,
    is_interrupted: bool,
}

impl Write for Narrow {
    fn write(&mut self, buf: &[u8]) -> io::Result<usize> {
        if self.is_interrupted {
            self.is_interrupted = false;
            return Err(io::Error::from(ErrorKind::Interrupted));
        }
        let room = buf.len().min(self.left).min(2);
        let count = self.file.write(&buf[..room])?;
        self.left = self.left.saturating_sub(count);
        Ok(count)
    }

    fn flush(&mut self) -> io::Result<()> {
        self.file.flush()
    }
}

/// Whether a file that takes nine bytes takes nine and fails at the tenth.
fn takes_nine(file: File) -> bool {
    let mut sink = StdSink::new(Narrow {
        file,
        left: 9,
        is_interrupted: true,
    });
    let put = [sink.put(b"some "), sink.put(b"text"), sink.put(b"")];
    put == [Ok(()); 3] && sink.put(b"more") == Err(PutFault::Failed)
}

/// Whether the file under the name takes nine bytes and then has them.
fn is_put(rt: &HostRuntime, name: &str) -> io::Result<bool> {
    let took = takes_nine(fs::create(rt, name)?);
    let written = fs::read(rt, name)?;
    Ok(took && written.as_slice() == b"some text".as_slice())
}

#[test]
fn a_file_takes_pieces_that_it_takes_in_parts(rt: HostRuntime) -> Result<(), Fail> {
    assert!(rt; is_put(&rt, "ofit_put.txt")?);
    fs::remove_file(&rt, "ofit_put.txt")?;
    Ok(())
}
