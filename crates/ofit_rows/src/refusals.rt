use crate::desk::rows_hold;
use std::test::Fail;

const WORDS: &str = r#"
-- case faults of the words
-- file d
group,value,weight
A,1,1
B,3,1
C,2,1
-- run 2 0 0
-- err
ofit: no command
-- run 2 0 0 keep d
-- err
ofit: unknown command
-- run 2 0 0 fit
-- err
ofit: names missing
-- run 2 0 0 fit d colour=red
-- err
ofit: unknown setting at word 2
-- run 2 0 0 fit d lo=1 lo=2
-- err
ofit: repeated setting at word 3
-- run 2 0 0 fit d places=7
-- err
ofit: bad setting at word 2
-- run 2 0 0 fit d lo=3 hi=2
-- err
ofit: bounds cross
-- run 2 0 0 levels 35
-- err
ofit: level out of range
-- run 2 0 0 fits d
-- err
ofit: unknown command
-- run 2 0 0 verify d
-- err
ofit: names missing
-- run 2 0 0 levels
-- err
ofit: names missing
-- run 2 0 0 levels 034
-- err
ofit: level out of range
-- run 2 0 0 levels 0 x
-- err
ofit: level out of range
-- run 2 0 0 levels 34 places=3
-- err
ofit: unknown setting at word 2
-- run 2 0 0 fit d places
-- err
ofit: unknown setting at word 2
-- run 2 0 0 fit d lo=
-- err
ofit: bad setting at word 2
-- run 2 0 0 fit d order=file:
-- err
ofit: bad setting at word 2
-- run 2 0 0 fit d order=tree:
-- err
ofit: bad setting at word 2
-- run 2 0 0 fit d loss=Squares
-- err
ofit: bad setting at word 2
-- run 2 0 0 fit d seed=1
-- err
ofit: unknown setting at word 2
-- run 2 0 0 unimodal d loss=median
-- err
ofit: unknown setting at word 2
-- run 2 0 0 verify-unimodal d s places=3 places=3
-- err
ofit: repeated setting at word 4
-- run 2 0 0 sample places=3
-- err
ofit: unknown setting at word 1
-- run 2 0 0 sample rows=99
-- err
ofit: bad setting at word 1
-- run 2 0 0 sample rows=3 groups=4
-- err
ofit: bad setting at word 1
-- run 2 0 0 sample groups=0
-- err
ofit: bad setting at word 1
-- run 2 0 0 sample seed=4294967296
-- err
ofit: bad setting at word 1
-- run 2 0 0 fit d places=2 lo=1.255
-- err
ofit: bad setting at word 3
-- run 2 0 0 fit d lo=1.2555 places=9
-- err
ofit: bad setting at word 2
-- run 2 0 0 fit d lo=1.25 places=1 places=2
-- err
ofit: bad setting at word 2
-- run 2 0 0 fit d lo=1.25 places=1x places=2
-- err
ofit: bad setting at word 3"#;

const TABLES: &str = r#"
-- case faults of the header
-- file d
-- run 3 0 0 fit d
-- err
ofit: data: no header
-- file d
group,weight
-- run 3 0 0 fit d
-- err
ofit: data: no column value
-- file d
weight,group,value,weight
A,1
-- run 3 0 0 fit d
-- err
ofit: data: column twice weight
-- case faults of rows name their record
-- file d
group,value
A,1
B,1.2345
-- run 3 0 0 fit d
-- err
ofit: data record 3: too many decimals
-- file d
group,value
A,1
B,NA
-- run 3 0 0 fit d
-- err
ofit: data record 3: not a number
-- file d
group,value
"A
B",1
-- run 3 0 0 fit d
-- err
ofit: data record 2: not a name
-- file d
group,value
A,1
1234567890123456789012345678901234567890123456789012345678901234,2
-- run 0 1 0 fit d places=0
ofit-sheet,2,squares,0
bounds,none,none,-
size,2,2,-
value,A,1,1
value,1234567890123456789012345678901234567890123456789012345678901234,2,1
end,-,-,-
-- file d
group,value
A,1
12345678901234567890123456789012345678901234567890123456789012345,2
-- run 3 0 0 fit d
-- err
ofit: data record 3: not a name
-- file d
value,group
1,A
2
-- run 3 0 0 fit d
-- err
ofit: data record 3: field missing
-- file d
group,value,weight
A,1,0
-- run 3 0 0 fit d
-- err
ofit: data record 2: bad weight
-- file d
group,value,weight
A,1,10000000000
B,1,1
-- run 3 0 0 fit d
-- err
ofit: data record 3: total weight too large
-- file d
group,value,weight
A,1000000001,1000000
-- run 3 0 0 fit d places=0
-- err
ofit: data record 2: number too large
-- file d
group,value
A,1000000.001
-- run 3 0 0 fit d
-- err
ofit: data record 2: number too large"#;

const ORDERS: &str = r#"
-- case faults of orders
-- file d
group,value,weight
A,1,1
B,3,1
C,2,1
-- run 3 0 0 fit d order=tree:Z
-- err
ofit: order: no such group
-- run 3 0 0 fit d order=umbrella:Z
-- err
ofit: order: no such group
-- file o
-- run 3 0 0 fit d order=file:o
-- err
ofit: order: no header
-- file o
low
-- run 3 0 0 fit d order=file:o
-- err
ofit: order: no column high
-- file o
low,high
A,B
A
-- run 3 0 0 fit d order=file:o
-- err
ofit: order record 3: field missing
-- file o
low,high
A,B
A,Z
-- run 3 0 0 fit d order=file:o
-- err
ofit: order record 3: unknown group
-- case files that are not there
-- file d
group,value
A,1
-- run 3 0 0 fit x
-- err
ofit: data: no such file
-- run 3 0 0 fit d order=file:x
-- err
ofit: order: no such file
-- run 3 0 0 verify d x
-- err
ofit: sheet: no such file"#;

#[test]
fn words_are_refused(rt: HostRuntime) -> Result<(), Fail> {
    rows_hold(&rt, rt.alloc(), WORDS)
}

#[test]
fn tables_are_refused(rt: HostRuntime) -> Result<(), Fail> {
    rows_hold(&rt, rt.alloc(), TABLES)
}

#[test]
fn orders_are_refused(rt: HostRuntime) -> Result<(), Fail> {
    rows_hold(&rt, rt.alloc(), ORDERS)
}
