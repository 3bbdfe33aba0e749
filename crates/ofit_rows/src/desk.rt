use ofit_num::{Tally, read_whole};
use ofit_outside::{MemFolder, MemSink};
use ofit_top::{run, status};
use std::alloc::{AllocError, Global};
use std::process::Abort;
use std::rt::Files;
use std::test::Fail;

const ROOM: u64 = 200_000;

/// The files that runs find, the faults that they meet, and what the last run put out.
#[derive(Drop)]
pub(crate) struct Desk {
    folder: MemFolder,
    pub(crate) failing_put: u64,
    pub(crate) room: u64,
    err_room: u64,
    pub(crate) out: Vec<u8>,
    pub(crate) err: Vec<u8>,
}

impl Desk {
    /// A desk without files, where the fetch of this number fails. None has the number 0.
    pub(crate) fn new(alloc: Global, failing_fetch: u64) -> Result<Desk, AllocError> {
        Ok(Desk {
            folder: MemFolder::new(alloc, &[failing_fetch])?,
            failing_put: 0,
            room: ROOM,
            err_room: ROOM,
            out: Vec::new(alloc),
            err: Vec::new(alloc),
        })
    }

    pub(crate) fn hold(&mut self, name: &str, bytes: &[u8]) -> Result<(), AllocError> {
        self.folder.hold(name, bytes)
    }

    /// Begins anew, where the fetch of this number fails.
    fn begin(&mut self, alloc: Global, failing_fetch: u64) -> Result<(), AllocError> {
        *self = Desk::new(alloc, failing_fetch)?;
        Ok(())
    }

    /// Keeps what was put out.
    fn keep(&mut self, alloc: Global, out: &MemSink, err: &MemSink) -> Result<(), AllocError> {
        self.out = Vec::from_slice(alloc, out.bytes())?;
        self.err = Vec::from_slice(alloc, err.bytes())?;
        Ok(())
    }

    /// Runs the words, and tells status, fits and cuts.
    pub(crate) fn run<R: Files>(
        &mut self,
        rt: &R,
        alloc: Global,
        words: &[String],
    ) -> Result<String, AllocError> {
        let mut out = MemSink::new(alloc, self.room, &[self.failing_put])?;
        let mut err = MemSink::new(alloc, self.err_room, &[])?;
        let mut tally = Tally::new(rt);
        let status = status(&run(
            alloc,
            words,
            &mut self.folder,
            &mut out,
            &mut err,
            &mut tally,
        ));
        self.keep(alloc, &out, &err)?;
        let (fits, cuts) = (tally.fits(), tally.cuts());
        format!(in alloc; "{status} {fits} {cuts}")
    }
}

/// The bytes of a section's body, each of whose lines is ended.
fn bytes_of(alloc: Global, body: &str) -> Result<Vec<u8>, AllocError> {
    let mut bytes = Vec::from_slice(alloc, body.as_bytes())?;
    if !body.is_empty() {
        bytes.push(b'\n')?;
    }
    Ok(bytes)
}

/// The number of a section, which has to be one.
fn number_of<R: Abort>(rt: &R, text: &str) -> u64 {
    let number = read_whole(text.as_bytes(), 200_000);
    assert!(rt; number.is_ok(), "no number: {text}");
    number.unwrap_or(0) as u64
}

/// Whether the line begins with what was told, and its words or nothing stand behind it.
fn is_told(line: &str, told: &str) -> bool {
    match line.strip_prefix(told) {
        Some(rest) => rest.is_empty() || rest.starts_with(' '),
        None => false,
    }
}

fn text_of(bytes: &[u8]) -> &str {
    match std::str::from_utf8(bytes) {
        Ok(text) => text,
        Err(_) => "no text",
    }
}

/// The words behind the three numbers.
fn words_of(alloc: Global, line: &str) -> Result<Vec<String>, AllocError> {
    let mut words = Vec::new(alloc);
    for (place, word) in line.split(' ').enumerate() {
        if place > 2 {
            words.push(String::from_str(alloc, word)?)?;
        }
    }
    Ok(words)
}

/// Runs the line's words. The run has to end with the line's numbers, and to write these bytes.
fn run_line<R: Abort + Files>(
    rt: &R,
    alloc: Global,
    desk: &mut Desk,
    line: &str,
    wanted: &[u8],
) -> Result<(), Fail> {
    let words = words_of(alloc, line)?;
    let told = desk.run(rt, alloc, words.as_slice())?;
    assert_eq!(rt; text_of(desk.out.as_slice()), text_of(wanted), "{line}");
    assert!(rt; is_told(line, told.as_str()), "{line} ended with {told}");
    Ok(())
}

/// Runs the line's words. The run has to end with the line's numbers, whatever it writes.
fn run_unseen<R: Abort + Files>(
    rt: &R,
    alloc: Global,
    desk: &mut Desk,
    line: &str,
) -> Result<(), Fail> {
    let words = words_of(alloc, line)?;
    let told = desk.run(rt, alloc, words.as_slice())?;
    assert!(rt; is_told(line, told.as_str()), "{line} ended with {told}");
    Ok(())
}

/// Runs the line's words. The run has to end with the line's numbers, and its output begins with these
/// bytes.
fn run_begun<R: Abort + Files>(
    rt: &R,
    alloc: Global,
    desk: &mut Desk,
    line: &str,
    wanted: &[u8],
) -> Result<(), Fail> {
    run_unseen(rt, alloc, desk, line)?;
    let out = text_of(desk.out.as_slice());
    assert!(rt;
        out.starts_with(text_of(wanted)),
        "{line} begins with another text"
    );
    Ok(())
}

/// What the last run told on err.
fn err_line<R: Abort>(rt: &R, alloc: Global, desk: &Desk, body: &str) -> Result<(), Fail> {
    let wanted = bytes_of(alloc, body)?;
    assert_eq!(rt; text_of(desk.err.as_slice()), text_of(wanted.as_slice()));
    Ok(())
}

/// Sets the desk up, if the section says how.
fn is_set_up<R: Abort>(
    rt: &R,
    alloc: Global,
    desk: &mut Desk,
    kind: &str,
    rest: &str,
    body: &str,
) -> Result<bool, AllocError> {
    if kind == "case" {
        desk.begin(alloc, 0)?;
    } else if kind == "failing-fetch" {
        desk.begin(alloc, number_of(rt, rest))?;
    } else if kind == "failing-put" {
        desk.failing_put = number_of(rt, rest);
    } else if kind == "room" {
        desk.room = number_of(rt, rest);
    } else if kind == "err-room" {
        desk.err_room = number_of(rt, rest);
    } else if kind == "file" {
        desk.hold(rest, bytes_of(alloc, body)?.as_slice())?;
    } else if kind == "keep" {
        desk.folder.hold(rest, desk.out.as_slice())?;
    } else {
        return Ok(false);
    }
    Ok(true)
}

/// Runs what the section says, or looks at what the last run told.
fn run_section<R: Abort + Files>(
    rt: &R,
    alloc: Global,
    desk: &mut Desk,
    kind: &str,
    rest: &str,
    body: &str,
) -> Result<(), Fail> {
    if kind == "run" {
        run_line(rt, alloc, desk, rest, bytes_of(alloc, body)?.as_slice())
    } else if kind == "cut" {
        run_line(rt, alloc, desk, rest, body.as_bytes())
    } else if kind == "begins" {
        run_begun(rt, alloc, desk, rest, bytes_of(alloc, body)?.as_slice())
    } else if kind == "any" {
        run_unseen(rt, alloc, desk, rest)
    } else if kind == "err" {
        err_line(rt, alloc, desk, body)
    } else {
        assert!(rt; kind.is_empty(), "no section: {kind} {rest}");
        Ok(())
    }
}

/// Does what a section says.
fn take_section<R: Abort + Files>(
    rt: &R,
    alloc: Global,
    desk: &mut Desk,
    head: &str,
    body: &str,
) -> Result<(), Fail> {
    let (kind, rest) = match head.split_once(' ') {
        Some(parts) => parts,
        None => (head, ""),
    };
    if is_set_up(rt, alloc, desk, kind, rest, body)? {
        return Ok(());
    }
    run_section(rt, alloc, desk, kind, rest, body)
}

/// Goes through the rows of a text. Each section begins with a line `-- KIND ..`, and what stands up to the
/// next one is its body:
///
/// - `case NAME`: a new desk without files and faults;
/// - `failing-fetch N`, `failing-put N`, `room N`, `err-room N`: the N-th fetch or put fails, out or err
///   takes no more than N bytes (`failing-fetch` stands before the files);
/// - `file NAME`: the body is held as a file;
/// - `run STATUS FITS CUTS WORDS`: a run ends with this status and these counts, and its output is the body;
/// - `cut STATUS FITS CUTS WORDS`: the same, where the output's last line has no end;
/// - `begins STATUS FITS CUTS WORDS`: the same, where the output begins with the body;
/// - `any STATUS FITS CUTS WORDS`: the same, whatever the output;
/// - `keep NAME`: the output is held as a file;
/// - `err`: the body is what the run told on err.
pub(crate) fn rows_hold<R: Abort + Files>(rt: &R, alloc: Global, text: &str) -> Result<(), Fail> {
    let mut desk = Desk::new(alloc, 0)?;
    for section in text.split("\n-- ") {
        let (head, body) = match section.split_once('\n') {
            Some(parts) => parts,
            None => (section, ""),
        };
        take_section(rt, alloc, &mut desk, head, body)?;
    }
    Ok(())
}
