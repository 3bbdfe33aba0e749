use crate::desk::rows_hold;
use std::test::Fail;

const DIAMONDS: &str = r#"
-- case a diamond that breaks its order everywhere has one value
-- file o
low,high
A,B
A,C
B,D
C,D
-- file d
group,value
A,4
B,1
C,3
D,2
-- run 0 1 1 fit d order=file:o places=0
ofit-sheet,2,squares,0
bounds,none,none,-
size,4,4,-
value,A,5,2
value,B,5,2
value,C,5,2
value,D,5,2
flow,A,B,3
flow,C,D,1
end,-,-,-
-- keep s
-- run 0 0 0 verify d s order=file:o places=0
passes
-- file d
group,value
A,1
B,5
C,0
D,3
-- run 0 1 1 fit d order=file:o places=0
ofit-sheet,2,squares,0
bounds,none,none,-
size,4,4,-
value,A,1,2
value,B,4,1
value,C,1,2
value,D,4,1
flow,A,C,1
flow,B,D,1
end,-,-,-
-- keep s
-- run 0 0 0 verify d s order=file:o places=0
passes
-- case of the median's ties in a diamond the least values are taken
-- file o
low,high
A,B
A,C
B,D
C,D
-- file d
group,value
A,1
A,5
B,1
C,5
D,1
D,5
-- run 0 1 1 fit d order=file:o loss=median places=0
ofit-sheet,2,median,0
bounds,none,none,-
size,6,6,-
value,A,1,1
value,B,1,1
value,C,5,1
value,D,5,1
end,-,-,-
-- keep s
-- run 0 0 0 verify d s order=file:o loss=median places=0
passes"#;

const CYCLES: &str = r#"
-- case groups on a cycle have equal values
-- file d
group,value,weight
A,1,1
B,3,1
C,2,1
-- file o
low,high
A,B
B,A
-- run 0 2 1 fit d order=file:o places=0
ofit-sheet,2,squares,0
bounds,none,none,-
size,3,3,-
value,A,2,1
value,B,2,1
value,C,2,1
flow,B,A,1
end,-,-,-
-- keep s
-- run 0 0 0 verify d s order=file:o places=0
passes
-- file o
low,high
A,A
-- run 0 3 1 fit d order=file:o places=0
ofit-sheet,2,squares,0
bounds,none,none,-
size,3,3,-
value,A,1,1
value,B,3,1
value,C,2,1
end,-,-,-
-- file o
low,high
A,B
B,C
C,A
-- begins 0 1 1 fit d order=file:o places=0
ofit-sheet,2,squares,0
bounds,none,none,-
size,3,3,-
value,A,2,1
value,B,2,1
value,C,2,1
-- keep s
-- run 0 0 0 verify d s order=file:o places=0
passes
-- any 0 1 1 fit d order=file:o places=0 loss=median
-- keep s
-- run 0 0 0 verify d s order=file:o places=0 loss=median
passes
-- case a chain, a tree and a diamond are counted apart
-- file d
group,value
P,2
Q,1
R,5
S,6
T,7
A,1
B,5
C,0
D,3
-- file o
low,high
P,Q
S,R
T,R
A,B
A,C
B,D
C,D
-- any 0 3 1 fit d order=file:o places=0
-- keep s
-- run 0 0 0 verify d s order=file:o places=0
passes"#;

const BOUNDS: &str = r#"
-- case values are cut off at the bounds
-- file d
group,value,weight
A,1,1
B,3,1
C,2,1
-- run 0 1 0 fit d lo=2 places=0
ofit-sheet,2,squares,0
bounds,2,none,-
size,3,3,-
value,A,2,1
value,B,5,2
value,C,5,2
flow,B,C,1
end,-,-,-
-- keep s
-- run 0 0 0 verify d s lo=2 places=0
passes
-- any 0 1 0 fit d hi=2 places=0
-- keep s
-- run 0 0 0 verify d s hi=2 places=0
passes
-- any 0 1 0 fit d lo=2 hi=2 places=0 loss=median
-- keep s
-- run 0 0 0 verify d s lo=2 hi=2 places=0 loss=median
passes
-- case bounds are not applied before the fit
-- file d
group,value
A,10
B,-10
-- file s
ofit-sheet,1,squares,0
bounds,2,none,-
value,A,6,1
value,B,6,1
flow,A,B,4
end,-,-,-
-- run 1 0 0 verify d s lo=2 places=0
fails balance B
-- begins 0 1 0 fit d lo=2 places=0
ofit-sheet,2,squares,0
bounds,2,none,-
size,2,2,-
value,A,2,1
value,B,2,1
-- keep s
-- run 0 0 0 verify d s lo=2 places=0
passes
-- case a diamond and a cycle within bounds
-- file d
group,value
A,1
B,5
C,0
D,3
-- file o
low,high
A,B
A,C
B,D
C,D
-- any 0 1 1 fit d order=file:o lo=1 hi=3 places=0
-- keep s
-- run 0 0 0 verify d s order=file:o lo=1 hi=3 places=0
passes
-- file o
low,high
A,B
B,A
-- any 0 3 1 fit d order=file:o lo=1 hi=3 places=0 loss=median
-- keep s
-- run 0 0 0 verify d s order=file:o lo=1 hi=3 places=0 loss=median
passes"#;

#[test]
fn bounds_are_kept(rt: HostRuntime) -> Result<(), Fail> {
    rows_hold(&rt, rt.alloc(), BOUNDS)
}

#[test]
fn diamonds_are_fitted(rt: HostRuntime) -> Result<(), Fail> {
    rows_hold(&rt, rt.alloc(), DIAMONDS)
}

#[test]
fn cycles_and_several_forms_are_fitted(rt: HostRuntime) -> Result<(), Fail> {
    rows_hold(&rt, rt.alloc(), CYCLES)
}
