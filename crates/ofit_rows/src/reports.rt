use crate::desk::rows_hold;
use std::test::Fail;

const REPORTS: &str = r#"
-- case a bounded chain
-- file d
group,value,weight
A,1,1
B,3,1
C,2,1
-- run 0 1 0 report d lo=2 places=0
ofit-report,1,squares,0,2,none,-,-
size,3,3,2,1,2,-,-
group,A,1,1,1,2,1,2.000
group,B,1,1,2,5,2,2.500
group,C,1,1,2,5,2,2.500
block,1,1,1,2,1,1,1
block,2,2,2,5,2,1,2
end,-,-,-,-,-,-,-
-- case decimals are rounded down
-- file d
group,value
A,0
B,0
C,-1
-- run 0 1 0 report d places=0
ofit-report,1,squares,0,none,none,-,-
size,3,3,2,1,1,-,-
group,A,1,1,1,-1,3,-0.334
group,B,1,1,1,-1,3,-0.334
group,C,1,1,1,-1,3,-0.334
block,1,3,3,-1,3,2,3
end,-,-,-,-,-,-,-
-- case an umbrella under medians
-- file d
group,value
A,1
B,5
C,2
D,4
-- run 0 1 0 report d order=umbrella:B loss=median places=0
ofit-report,1,median,0,none,none,-,-
size,4,4,3,1,3,-,-
group,A,1,1,1,1,1,1.000
group,B,1,1,2,5,1,5.000
group,C,1,1,3,2,1,2.000
group,D,1,1,3,2,1,2.000
block,1,1,1,1,1,0,1
block,2,1,1,5,1,0,1
block,3,2,2,2,1,2,1
end,-,-,-,-,-,-,-
-- case equal values that no pair joins are several blocks
-- file d
group,value
A,1
B,1
-- run 0 2 0 report d order=none places=0
ofit-report,1,squares,0,none,none,-,-
size,2,2,0,2,2,-,-
group,A,1,1,1,1,1,1.000
group,B,1,1,2,1,1,1.000
block,1,1,1,1,1,0,1
block,2,1,1,1,1,0,1
end,-,-,-,-,-,-,-
-- case a diamond
-- file d
group,value
A,1
B,5
C,0
D,3
-- file o
low,high
A,B
A,C
B,D
C,D
-- run 0 1 1 report d order=file:o places=0
ofit-report,1,squares,0,none,none,-,-
size,4,4,4,1,2,-,-
group,A,1,1,1,1,2,0.500
group,B,1,1,2,4,1,4.000
group,C,1,1,1,1,2,0.500
group,D,1,1,2,4,1,4.000
block,1,2,2,1,2,1,2
block,2,2,2,4,1,2,1
end,-,-,-,-,-,-,-
-- case an empty table
-- file d
group,value
-- run 0 0 0 report d
ofit-report,1,squares,3,none,none,-,-
size,0,0,0,0,0,-,-
end,-,-,-,-,-,-,-
-- case names that need quotes, and six places
-- file d
group,value
"a,""b""",-1.5
-- run 0 1 0 report d places=6 hi=2
ofit-report,1,squares,6,none,2000000,-,-
size,1,1,0,1,1,-,-
group,"a,""b""",1,1,1,-1500000,1,-1.500000000
block,1,1,1,-1500000,1,0,1
end,-,-,-,-,-,-,-
-- case costs at the limits
-- file d
group,value,weight
A,1000000000,5000000000
B,-1000000000,5000000000
-- run 0 1 0 report d places=0
ofit-report,1,squares,0,none,none,-,-
size,2,2,1,1,1,-,-
group,A,1,5000000000,1,0,1,0.000
group,B,1,5000000000,1,0,1,0.000
block,1,2,10000000000,0,1,10000000000000000000000000000,1
end,-,-,-,-,-,-,-
-- case a chain beside a group of its own
-- file d
group,value,weight
A,1,1
B,3,1
C,2,3
E,7,1
-- file o
low,high
A,B
B,C
E,E
-- run 0 2 1 report d order=file:o places=0
ofit-report,1,squares,0,none,none,-,-
size,4,4,3,2,3,-,-
group,A,1,1,1,1,1,1.000
group,B,1,1,2,9,4,2.250
group,C,1,3,2,9,4,2.250
group,E,1,1,3,7,1,7.000
block,1,1,1,1,1,0,1
block,2,2,4,9,4,3,4
block,3,1,1,7,1,0,1
end,-,-,-,-,-,-,-
-- run 3 0 0 report d order=tree:Z places=0
-- err
ofit: order: no such group"#;

#[test]
fn reports_are_printed(rt: HostRuntime) -> Result<(), Fail> {
    rows_hold(&rt, rt.alloc(), REPORTS)
}
