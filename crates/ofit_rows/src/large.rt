use crate::desk::Desk;
use std::alloc::{AllocError, Global};
use std::test::Fail;

/// A table of so many rows, which go round so many groups.
fn many_rows(alloc: Global, rows: u32, groups: u32) -> Result<Vec<u8>, AllocError> {
    let mut table = Vec::from_slice(alloc, b"group,value\n")?;
    for row in 0..rows {
        let group = row.checked_rem(groups).unwrap_or(0);
        let line = format!(in alloc; "g{group},{group}\n")?;
        table.extend_from_slice(line.as_bytes())?;
    }
    Ok(table)
}

/// `n001,1` to `n400,1`.
fn four_hundred(alloc: Global) -> Result<Vec<u8>, AllocError> {
    let mut table = Vec::from_slice(alloc, b"group,value\n")?;
    for number in 1u32..401 {
        let line = format!(in alloc; "n{number:03},1\n")?;
        table.extend_from_slice(line.as_bytes())?;
    }
    Ok(table)
}

/// A desk with a table as the file `d`.
fn desk_with(alloc: Global, table: &[u8]) -> Result<Desk, AllocError> {
    let mut desk = Desk::new(alloc, 0)?;
    desk.hold("d", table)?;
    Ok(desk)
}

/// How `fit d` ends over a table: status, fits and cuts.
fn fit_of(rt: &HostRuntime, table: &[u8], failing_put: u64) -> Result<(String, usize), AllocError> {
    let mut desk = desk_with(rt.alloc(), table)?;
    desk.failing_put = failing_put;
    let told = told(rt, &mut desk, "fit d places=0")?;
    Ok((told, desk.out.len()))
}

/// Whether the words are refused over the desk's files with this line.
fn is_refused(
    rt: &HostRuntime,
    desk: &mut Desk,
    line: &str,
    message: &str,
) -> Result<bool, AllocError> {
    let ended = told(rt, desk, line)?;
    let refused = ended.as_str() == "3 0 0" && desk.out.is_empty();
    Ok(refused && desk.err.as_slice() == message.as_bytes())
}

/// Whether `fit d` of the table is refused with this line.
fn is_table_refused(rt: &HostRuntime, table: &[u8], message: &str) -> Result<bool, AllocError> {
    let mut desk = desk_with(rt.alloc(), table)?;
    is_refused(rt, &mut desk, "fit d places=0", message)
}

/// Whether a table of so many rows in so many groups is refused with this line.
fn are_rows_refused(
    rt: &HostRuntime,
    rows: u32,
    groups: u32,
    message: &str,
) -> Result<bool, AllocError> {
    let table = many_rows(rt.alloc(), rows, groups)?;
    is_table_refused(rt, table.as_slice(), message)
}

#[test]
fn limits_of_rows_and_groups_are_told(rt: HostRuntime) -> Result<(), Fail> {
    let message = "ofit: data record 2002: too many groups\n";
    assert!(rt; are_rows_refused(&rt, 2_001, 3_000, message)?);
    let message = "ofit: data record 100002: too many rows\n";
    assert!(rt; are_rows_refused(&rt, 100_001, 2_000, message)?);
    Ok(())
}

#[test]
fn a_table_of_too_many_bytes_is_refused(rt: HostRuntime) -> Result<(), Fail> {
    let long = vec![in rt.alloc(); 10u8; 33_554_433]?;
    assert!(rt; is_table_refused(&rt, long.as_slice(), "ofit: data: file too long\n")?);
    Ok(())
}

/// 300 groups of equal values.
fn equal_rows(alloc: Global) -> Result<Vec<u8>, AllocError> {
    let mut table = Vec::from_slice(alloc, b"group,value\n")?;
    for group in 0u32..300 {
        let line = format!(in alloc; "g{group},1\n")?;
        table.extend_from_slice(line.as_bytes())?;
    }
    Ok(table)
}

/// 20,000 pairs of 100 low and 200 high groups.
fn most_pairs(alloc: Global) -> Result<Vec<u8>, AllocError> {
    let mut order = Vec::from_slice(alloc, b"low,high\n")?;
    for low in 0u32..100 {
        for high in 100u32..300 {
            let line = format!(in alloc; "g{low},g{high}\n")?;
            order.extend_from_slice(line.as_bytes())?;
        }
    }
    Ok(order)
}

/// Whether the order is taken, and refused with one pair more.
fn is_full(rt: &HostRuntime, desk: &mut Desk, order: &mut Vec<u8>) -> Result<bool, AllocError> {
    let line = "report d order=file:o places=0";
    desk.hold("o", order.as_slice())?;
    let is_taken = told(rt, desk, line)?.as_str() == "0 1 1";
    order.extend_from_slice(b"g0,g1\n")?;
    desk.hold("o", order.as_slice())?;
    let message = "ofit: order record 20002: too many pairs\n";
    Ok(is_taken && is_refused(rt, desk, line, message)?)
}

#[test]
fn the_limit_of_pairs_is_told(rt: HostRuntime) -> Result<(), Fail> {
    let mut desk = desk_with(rt.alloc(), equal_rows(rt.alloc())?.as_slice())?;
    let mut order = most_pairs(rt.alloc())?;
    assert!(rt; is_full(&rt, &mut desk, &mut order)?);
    Ok(())
}

#[test]
fn the_greatest_table_is_fitted(rt: HostRuntime) -> Result<(), Fail> {
    let table = many_rows(rt.alloc(), 100_000, 2_000)?;
    let (told, _) = fit_of(&rt, table.as_slice(), 0)?;
    assert_eq!(rt; told.as_str(), "0 1 0");
    Ok(())
}

#[test]
fn a_long_text_is_put_in_pieces(rt: HostRuntime) -> Result<(), Fail> {
    let table = four_hundred(rt.alloc())?;
    let (told, length) = fit_of(&rt, table.as_slice(), 0)?;
    assert_eq!(rt; told.as_str(), "0 1 0");
    assert_eq!(rt; length, 6067);
    let (told, length) = fit_of(&rt, table.as_slice(), 2)?;
    assert_eq!(rt; told.as_str(), "5 1 0");
    assert_eq!(rt; length, 5081);
    Ok(())
}

/// How the words end over the desk's files: status, fits and cuts.
fn told(rt: &HostRuntime, desk: &mut Desk, line: &str) -> Result<String, AllocError> {
    let mut words = Vec::new(rt.alloc());
    for word in line.split(' ') {
        words.push(String::from_str(rt.alloc(), word)?)?;
    }
    desk.run(rt, rt.alloc(), words.as_slice())
}

/// So many copies of a line.
fn lines_of(alloc: Global, line: &[u8], count: u32) -> Result<Vec<u8>, AllocError> {
    let mut lines = Vec::new(alloc);
    for _ in 0..count {
        lines.extend_from_slice(line)?;
    }
    Ok(lines)
}

/// Whether the script is refused with this line.
fn is_script_refused(rt: &HostRuntime, script: &[u8], message: &str) -> Result<bool, AllocError> {
    let mut desk = desk_with(rt.alloc(), b"group,value\nA,1\n")?;
    desk.hold("s", script)?;
    is_refused(rt, &mut desk, "session d s", message)
}

/// How a session with the script ends: status, fits and cuts.
fn session_of(rt: &HostRuntime, script: &[u8]) -> Result<String, AllocError> {
    let mut desk = desk_with(rt.alloc(), b"group,value\nA,1\n")?;
    desk.room = 2_000_000;
    desk.hold("s", script)?;
    told(rt, &mut desk, "session d s")
}

/// Whether a session with so many copies of a line ends well.
fn are_lines_run(rt: &HostRuntime, line: &[u8], count: u32) -> Result<bool, AllocError> {
    let script = lines_of(rt.alloc(), line, count)?;
    Ok(session_of(rt, script.as_slice())?.as_str() == "0 1 0")
}

/// Whether a script of so many copies of a line is refused with this line.
fn are_lines_refused(
    rt: &HostRuntime,
    line: &[u8],
    count: u32,
    message: &str,
) -> Result<bool, AllocError> {
    let script = lines_of(rt.alloc(), line, count)?;
    is_script_refused(rt, script.as_slice(), message)
}

#[test]
fn limits_of_scripts_are_told(rt: HostRuntime) -> Result<(), Fail> {
    assert!(rt; are_lines_run(&rt, b"report\n", 100)?);
    let message = "ofit: script record 101: too many reports\n";
    assert!(rt; are_lines_refused(&rt, b"report\n", 101, message)?);
    assert!(rt; are_lines_run(&rt, b"remove,9\n", 10_000)?);
    let message = "ofit: script record 10001: too many lines\n";
    assert!(rt; are_lines_refused(&rt, b"remove,9\n", 10_001, message)?);
    Ok(())
}

#[test]
fn a_script_of_too_many_bytes_is_refused(rt: HostRuntime) -> Result<(), Fail> {
    let long = vec![in rt.alloc(); 10u8; 33_554_433]?;
    assert!(rt; is_script_refused(&rt, long.as_slice(), "ofit: script: file too long\n")?);
    Ok(())
}

/// How the line ends over a table of so many groups, of one row each.
fn told_of_groups(rt: &HostRuntime, groups: u32, line: &str) -> Result<String, AllocError> {
    let table = many_rows(rt.alloc(), groups, 3_000)?;
    let mut desk = desk_with(rt.alloc(), table.as_slice())?;
    desk.room = 2_000_000;
    told(rt, &mut desk, line)
}

#[test]
fn an_unknown_peak_is_fitted_up_to_200_groups(rt: HostRuntime) -> Result<(), Fail> {
    for (groups, line, ended) in [
        (201, "unimodal d places=0", "3 0 0"),
        (201, "verify-unimodal d d places=0", "3 0 0"),
        (200, "unimodal d places=0", "0 0 0"),
    ] {
        assert_eq!(rt;
            told_of_groups(&rt, groups, line)?.as_str(),
            ended,
            "{line}"
        );
    }
    Ok(())
}

/// 10,000 rows in 200 groups, whose values go up and down.
fn mixed_rows(alloc: Global) -> Result<Vec<u8>, AllocError> {
    let mut table = Vec::from_slice(alloc, b"group,value\n")?;
    for row in 0u32..10_000 {
        let group = row % 200;
        let value = row % 97;
        let line = format!(in alloc; "g{group},{value}\n")?;
        table.extend_from_slice(line.as_bytes())?;
    }
    Ok(table)
}

#[test]
fn an_unknown_peak_of_10000_rows_is_verified(rt: HostRuntime) -> Result<(), Fail> {
    let table = mixed_rows(rt.alloc())?;
    let mut desk = desk_with(rt.alloc(), table.as_slice())?;
    desk.room = 2_000_000;
    assert_eq!(rt;
        told(&rt, &mut desk, "unimodal d places=0")?.as_str(),
        "0 0 0"
    );
    let sheet = Vec::from_slice(rt.alloc(), desk.out.as_slice())?;
    desk.hold("p", sheet.as_slice())?;
    let ended = told(&rt, &mut desk, "verify-unimodal d p places=0")?;
    assert_eq!(rt; ended.as_str(), "0 0 0");
    assert!(rt; desk.out.as_slice() == b"passes\n".as_slice());
    Ok(())
}

/// Whether the line ends well twice, with the same text.
fn is_told_twice(rt: &HostRuntime, desk: &mut Desk, line: &str) -> Result<bool, AllocError> {
    let first = told(rt, desk, line)?;
    let text = Vec::from_slice(rt.alloc(), desk.out.as_slice())?;
    let second = told(rt, desk, line)?;
    let is_same = first.as_str() == second.as_str() && text.as_slice() == desk.out.as_slice();
    Ok(is_same && first.starts_with("0 ") && !text.is_empty())
}

#[test]
fn a_sample_is_told_twice_in_the_same_bytes(rt: HostRuntime) -> Result<(), Fail> {
    let mut desk = Desk::new(rt.alloc(), 0)?;
    assert!(rt; is_told_twice(&rt, &mut desk, "sample seed=7 groups=400 rows=2000")?);
    Ok(())
}
