use crate::desk::rows_hold;
use std::test::Fail;

const FAULTS: &str = r#"
-- case a failing put leaves a first part
-- file d
group,value,weight
A,1,1
B,3,1
C,2,1
-- failing-put 1
-- cut 5 1 0 fit d order=chain places=0
ofit-sheet,2,squares,0
bounds,none,none,-
size,3,3,-
va
-- err
ofit: write fault
-- case an output without room takes nothing
-- file d
group,value,weight
A,1,1
B,3,1
C,2,1
-- room 109
-- run 5 1 0 fit d order=chain places=0
-- err
ofit: write fault
-- room 110
-- run 0 1 0 fit d order=chain places=0
ofit-sheet,2,squares,0
bounds,none,none,-
size,3,3,-
value,A,1,1
value,B,5,2
value,C,5,2
flow,B,C,1
end,-,-,-
-- failing-fetch 1
-- file d
group,value
A,1
-- run 4 0 0 fit d
-- err
ofit: read fault
-- failing-fetch 2
-- file d
group,value
A,1
-- run 0 1 0 fit d places=0
ofit-sheet,2,squares,0
bounds,none,none,-
size,1,1,-
value,A,1,1
end,-,-,-
-- run 4 0 0 fit d
-- err
ofit: read fault
-- failing-fetch 2
-- file d
group,value
A,1
-- file o
low,high
-- run 4 0 0 verify d s order=file:o places=0
-- err
ofit: read fault
-- failing-fetch 3
-- file d
group,value
A,1
-- file o
low,high
-- file s
ofit-sheet,1,squares,0
bounds,none,none,-
value,A,1,1
end,-,-,-
-- run 4 0 0 verify d s order=file:o places=0
-- err
ofit: read fault
-- run 0 0 0 verify d s order=file:o places=0
passes
-- case no further file is fetched and no further piece is put
-- failing-fetch 2
-- file d
group,value,weight
A,1,1
B,3,1
C,2,1
-- failing-put 2
-- run 0 1 0 fit d order=chain places=0
ofit-sheet,2,squares,0
bounds,none,none,-
size,3,3,-
value,A,1,1
value,B,5,2
value,C,5,2
flow,B,C,1
end,-,-,-
-- case a failing error output changes no answer
-- err-room 0
-- run 3 0 0 fit x
-- err
-- run 2 0 0
-- err"#;

#[test]
fn faults_of_devices_end_a_run(rt: HostRuntime) -> Result<(), Fail> {
    rows_hold(&rt, rt.alloc(), FAULTS)
}
