use crate::desk::rows_hold;
use std::test::Fail;

const VERDICTS: &str = r#"
-- case a sheet of the first version passes
-- file d
group,value,weight
A,1,1
B,3,1
C,2,1
-- file s
ofit-sheet,1,squares,0
bounds,none,none,-
value,A,1,1
value,B,5,2
value,C,5,2
flow,B,C,1
end,-,-,-
-- run 0 0 0 verify d s places=0
passes
-- run 1 0 0 verify d s places=0 lo=2
fails settings
-- run 1 0 0 verify d s places=0 loss=median
fails settings
-- file s
ofit-sheet,2,squares,0
bounds,none,none,-
size,4,4,-
value,A,1,1
value,B,5,2
value,C,5,2
flow,B,C,1
end,-,-,-
-- run 1 0 0 verify d s places=0
fails size
-- err
-- file s
ofit-sheet,2,squares,0
bounds,none,none,-
size,3,3,-
value,A,1,1
value,C,5,2
flow,B,C,1
end,-,-,-
-- run 1 0 0 verify d s places=0
fails missing B
-- file s
ofit-sheet,2,squares,0
bounds,none,none,-
size,3,3,-
value,A,1,1
value,B,3,1
value,C,2,1
end,-,-,-
-- run 1 0 0 verify d s places=0
fails order B C
-- file s
ofit-sheet,1,squares,0
bounds,none,none,-
value,A,1,1
value,B,5,2
value,C,5,2
flow,C,B,1
end,-,-,-
-- run 1 0 0 verify d s places=0
fails flow 1 not a pair
-- file s
ofit-sheet,1,squares,0
bounds,none,none,-
value,A,1,1
value,B,5,2
value,C,5,2
flow,B,B,1
end,-,-,-
-- run 1 0 0 verify d s places=0
fails flow 1 not a pair
-- file s
ofit-sheet,1,squares,0
bounds,none,none,-
value,A,1,1
value,B,5,2
value,C,5,2
flow,B,C,1
flow,A,B,1
end,-,-,-
-- run 1 0 0 verify d s places=0
fails flow 2 out of order
-- file s
ofit-sheet,1,squares,0
bounds,none,none,-
value,A,1,1
value,B,5,2
value,C,5,2
flow,B,C,1
flow,B,C,1
end,-,-,-
-- run 1 0 0 verify d s places=0
fails flow 2 out of order
-- file s
ofit-sheet,2,squares,0
bounds,none,none,-
size,3,3,-
value,A,1,1
value,B,5,2
value,C,5,2
flow,A,B,1
flow,B,C,1
end,-,-,-
-- run 1 0 0 verify d s places=0
fails flow 1 not tight
-- file s
ofit-sheet,1,squares,0
bounds,none,none,-
value,A,1,1
value,B,5,2
value,C,5,2
flow,A,B,1
flow,B,C,1
end,-,-,-
-- run 1 0 0 verify d s places=0
fails flow 1 not tight
-- file s
ofit-sheet,2,squares,0
bounds,none,none,-
size,3,3,-
value,A,1,1
value,B,5,2
value,C,5,2
flow,B,C,2
end,-,-,-
-- run 1 0 0 verify d s places=0
fails balance B
-- file s
ofit-sheet,1,squares,0
bounds,none,none,-
value,A,1,1
value,B,5,2
value,C,5,2
flow,B,C,2
end,-,-,-
-- run 1 0 0 verify d s places=0
fails balance B
-- case balances that sum to nothing are not enough
-- file d
group,value
A,0
B,2
-- file s
ofit-sheet,1,squares,0
bounds,none,none,-
value,A,1,1
value,B,1,1
end,-,-,-
-- run 1 0 0 verify d s places=0
fails balance A
-- case bounds of the sheet
-- file d
group,value,weight
A,1,1
B,3,1
C,2,1
-- file s
ofit-sheet,2,squares,0
bounds,2,none,-
size,3,3,-
value,A,2,1
value,B,5,2
value,C,5,2
flow,B,C,1
end,-,-,-
-- run 0 0 0 verify d s places=0 lo=2
passes
-- file s
ofit-sheet,2,squares,0
bounds,2,none,-
size,3,3,-
value,A,1,1
value,B,5,2
value,C,5,2
flow,B,C,1
end,-,-,-
-- run 1 0 0 verify d s places=0 lo=2
fails bounds A
-- case a sheet may be optimal and not the least
-- file d
group,value
A,3
A,7
-- file s
ofit-sheet,1,median,0
bounds,none,none,-
value,A,5,1
end,-,-,-
-- run 0 0 0 verify d s places=0 loss=median
passes
-- case flows run both ways on a cycle
-- file d
group,value,weight
A,1,1
B,3,1
C,2,1
-- file o
low,high
A,B
B,A
-- file s
ofit-sheet,1,squares,0
bounds,none,none,-
value,A,2,1
value,B,2,1
value,C,2,1
flow,A,B,1
flow,B,A,2
end,-,-,-
-- run 0 0 0 verify d s places=0 order=file:o
passes"#;

const FAULTS: &str = r#"
-- case faults of sheets name their record
-- file d
group,value,weight
A,1,1
B,3,1
C,2,1
-- file s
ofit-sheet,2,squares,0
bounds,none,none,-
size,3,3,-
value,A,1,1
value,B,5,2
value,C,5,2
flow,B,C,1
-- run 3 0 0 verify d s places=0
-- err
ofit: sheet: no end
-- file s
ofit-sheet,2,squares,0
bounds,none,none,-
size,3,3,-
value,A,1,1
value,B,5,2
value,B,5,2
value,C,5,2
flow,B,C,1
end,-,-,-
-- run 3 0 0 verify d s places=0
-- err
ofit: sheet record 6: bad record
-- file s
ofit-sheet,2,squares,0
bounds,none,none,-
size,3,3,-
value,A,1,1
value,B,10,4
value,C,5,2
flow,B,C,1
end,-,-,-
-- run 3 0 0 verify d s places=0
-- err
ofit: sheet record 5: bad record
-- file s
ofit-sheet,1,squares,0
bounds,none,none,-
value,A,1,1
value,B,10,4
value,C,5,2
flow,B,C,1
end,-,-,-
-- run 3 0 0 verify d s places=0
-- err
ofit: sheet record 4: bad record
-- file s
ofit-sheet,1,squares,0
bounds,none,none,-
value,A,1,1
value,B,5,2
value,B,5,2
value,C,5,2
flow,B,C,1
end,-,-,-
-- run 3 0 0 verify d s places=0
-- err
ofit: sheet record 5: bad record
-- file s
-- run 3 0 0 verify d s places=0
-- err
ofit: sheet: bad header
-- file s
ofit-sheet,1,squares,0
bounds,none,none,-
value,B,5,2
value,A,1,1
value,C,5,2
flow,B,C,1
end,-,-,-
-- run 3 0 0 verify d s places=0
-- err
ofit: sheet record 4: bad record
-- file s
ofit-sheet,1,squares,0
bounds,none,none,-
flow,B,C,1
value,A,1,1
value,B,5,2
value,C,5,2
end,-,-,-
-- run 3 0 0 verify d s places=0
-- err
ofit: sheet record 4: bad record
-- file s
ofit-sheet,1,squares,0
bounds,none,none,-
value,A,1000000000000000000001,1
value,B,5,2
value,C,5,2
flow,B,C,1
end,-,-,-
-- run 3 0 0 verify d s places=0
-- err
ofit: sheet record 3: number too large
-- file s
ofit-sheet,1,squares,0
bounds,none,none,-
value,A,1,1
value,B,5,2
value,C,5,2
flow,B,C,1
end,-,-,-
end,-,-,-
-- run 3 0 0 verify d s places=0
-- err
ofit: sheet record 8: record after the end
-- file s
ofit-sheet,1,squares,0
bounds,none,none,-
value,A,1,1
value,B,5,2
value,C,5,2
flow,B,C,0
end,-,-,-
-- run 3 0 0 verify d s places=0
-- err
ofit: sheet record 6: bad record
-- case of two faults the first is told
-- file d
group,value,weight
A,1,1
B,3,1
C,2,1
-- file s
ofit-sheet,1,squares,0
bounds,none,none,-
end,-,-,-
value,A,2,2
-- run 3 0 0 verify d s places=0
-- err
ofit: sheet record 4: record after the end
-- file s
ofit-sheet,1,squares,0
bounds,none,none,-
flow,A,B,2000000000000000000000000000000001
value,A,1,1
end,-,-,-
-- run 3 0 0 verify d s places=0
-- err
ofit: sheet record 3: number too large
-- file s
ofit-sheet,1,squares,0
bounds,none,none,-
size,3,3,-
end,-,-,-
-- run 3 0 0 verify d s places=0
-- err
ofit: sheet record 3: bad record
-- case the greatest numbers of a sheet, and one that passes them
-- file d
group,value,weight
A,1,1
B,3,1
C,2,1
-- file s
ofit-sheet,1,squares,0
bounds,none,none,-
value,A,1000000000000000000000,1
value,B,1,1000000000000
value,C,5,2
flow,B,C,2000000000000000000000000000000000
end,-,-,-
-- run 1 0 0 verify d s places=0
fails order A B
-- file s
ofit-sheet,1,squares,0
bounds,none,none,-
value,A,1,1
value,B,1,1000000000001
value,C,5,2
end,-,-,-
-- run 3 0 0 verify d s places=0
-- err
ofit: sheet record 4: number too large"#;

#[test]
fn sheets_get_their_verdicts(rt: HostRuntime) -> Result<(), Fail> {
    rows_hold(&rt, rt.alloc(), VERDICTS)
}

#[test]
fn faults_of_sheets_are_told(rt: HostRuntime) -> Result<(), Fail> {
    rows_hold(&rt, rt.alloc(), FAULTS)
}
