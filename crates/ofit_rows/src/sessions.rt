use crate::desk::rows_hold;
use std::test::Fail;

const EDITS: &str = r#"
-- case edits, refused ones among them, reports and sheets
-- file d
group,value,weight
A,1,1
B,3,1
C,2,1
E,7,1
-- file o
low,high
A,B
B,C
-- file s
weight,3,3
relate,E,E
weight,9,3
report
unrelate,B,C
sheet
-- run 0 6 1 session d s order=file:o places=0
line 1: refitted 1 of 2
line 2: refitted 1 of 2
line 3: refused no row
line 4: report
ofit-report,1,squares,0,none,none,-,-
size,4,4,3,2,3,-,-
group,A,1,1,1,1,1,1.000
group,B,1,1,2,9,4,2.250
group,C,1,3,2,9,4,2.250
group,E,1,1,3,7,1,7.000
block,1,1,1,1,1,0,1
block,2,2,4,9,4,3,4
block,3,1,1,7,1,0,1
end,-,-,-,-,-,-,-
line 5: refitted 2 of 3
line 6: sheet
ofit-sheet,2,squares,0
bounds,none,none,-
size,4,6,-
value,A,1,1
value,B,3,1
value,C,2,1
value,E,7,1
end,-,-,-
-- case a script of no lines
-- file d
group,value
A,1
-- file s
-- failing-put 1
-- run 0 1 0 session d s
-- case a value and a weight
-- file d
group,value,weight
A,1,1
B,3,1
C,2,1
-- file s
value,1,4
weight,1,9999999999
-- run 0 2 0 session d s places=0
line 1: refitted 1 of 1
line 2: refused total weight too large
-- case a group in use, a new row, and a row that takes its group away
-- file d
group,value,weight
A,1,1
B,3,1
C,2,1
-- file s
remove,3
add,D,9,1
remove,4
-- run 0 2 0 session d s places=0
line 1: refused group in use
line 2: refitted 1 of 2
line 3: refitted 0 of 1
-- case the first group goes, and comes back in front
-- file d
group,value
A,1
B,3
C,2
-- file s
remove,1
add,A,1,1
report
-- run 0 4 0 session d s order=none places=0
line 1: refitted 0 of 2
line 2: refitted 1 of 3
line 3: report
ofit-report,1,squares,0,none,none,-,-
size,3,3,0,3,3,-,-
group,A,1,1,1,1,1,1.000
group,B,1,1,2,3,1,3.000
group,C,1,1,3,2,1,2.000
block,1,1,1,1,1,0,1
block,2,1,1,3,1,0,1
block,3,1,1,2,1,0,1
end,-,-,-,-,-,-,-
-- case every row goes
-- file d
group,value
A,1
B,3
-- file s
remove,1
remove,2
report
-- run 0 2 0 session d s order=none places=0
line 1: refitted 0 of 1
line 2: refitted 0 of 0
line 3: report
ofit-report,1,squares,0,none,none,-,-
size,0,0,0,0,0,-,-
end,-,-,-,-,-,-,-
-- case each refusal, and of two the first
-- file d
group,value
A,1
B,3
-- file s
remove,7
remove,1
value,7,1
weight,7,1
weight,1,10000000000
relate,Y,Z
relate,A,Z
relate,A,B
unrelate,Y,Z
add,A,1,10000000000
-- run 0 1 0 session d s places=0
line 1: refused no row
line 2: refused group in use
line 3: refused no row
line 4: refused no row
line 5: refused total weight too large
line 6: refused no group low
line 7: refused no group high
line 8: refused pair present
line 9: refused pair absent
line 10: refused total weight too large
-- case components that split and join, under medians with bounds
-- file d
group,value
A,5
B,3
C,9
-- file s
unrelate,A,B
sheet
relate,C,A
report
-- run 0 4 0 session d s loss=median places=0 lo=4 hi=8
line 1: refitted 2 of 2
line 2: sheet
ofit-sheet,2,median,0
bounds,4,8,-
size,3,3,-
value,A,5,1
value,B,4,1
value,C,8,1
end,-,-,-
line 3: refitted 1 of 1
line 4: report
ofit-report,1,median,0,4,8,-,-
size,3,3,2,1,2,-,-
group,A,1,1,1,5,1,5.000
group,B,1,1,2,4,1,4.000
group,C,1,1,1,5,1,5.000
block,1,2,2,5,1,4,1
block,2,1,1,4,1,1,1
end,-,-,-,-,-,-,-
-- case an edit of a component with a closed walk, and two sheets
-- file d
group,value
A,1
B,3
C,2
-- file o
low,high
A,B
B,C
C,A
-- file s
sheet
value,2,9
sheet
-- any 0 2 2 session d s order=file:o places=0"#;

const FAULTS: &str = r#"
-- case faults of scripts
-- file d
group,value
A,1
-- file s
weight,3
-- run 3 0 0 session d s
-- err
ofit: script record 1: wrong number of fields
-- file s
report
Report
-- run 3 0 0 session d s
-- err
ofit: script record 2: unknown line
-- file s
add,A,1e10,1
-- run 3 0 0 session d s places=0
-- err
ofit: script record 1: number too large
-- file s
remove,01
-- run 3 0 0 session d s
-- err
ofit: script record 1: bad row number
-- file s
relate,,A
-- run 3 0 0 session d s
-- err
ofit: script record 1: not a name
-- file s
value,1,x
-- run 3 0 0 session d s
-- err
ofit: script record 1: not a number
-- file s
value,1,1.5
-- run 3 0 0 session d s places=0
-- err
ofit: script record 1: too many decimals
-- file s
weight,1,0
-- run 3 0 0 session d s
-- err
ofit: script record 1: bad weight
-- run 3 0 0 session d t
-- err
ofit: script: no such file
-- run 2 0 0 session d
-- err
ofit: names missing
-- failing-fetch 3
-- file d
group,value
A,1
-- file o
low,high
-- file s
report
-- run 4 0 0 session d s order=file:o
-- err
ofit: read fault"#;

#[test]
fn scripts_are_run(rt: HostRuntime) -> Result<(), Fail> {
    rows_hold(&rt, rt.alloc(), EDITS)
}

#[test]
fn faults_of_scripts_are_told(rt: HostRuntime) -> Result<(), Fail> {
    rows_hold(&rt, rt.alloc(), FAULTS)
}
