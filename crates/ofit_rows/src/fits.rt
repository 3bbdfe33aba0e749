use crate::desk::rows_hold;
use std::test::Fail;

const CHAINS: &str = r#"
-- case the worked chain prints its sheet, which passes
-- file d
group,value,weight
A,1,1
B,3,1
C,2,1
-- run 0 1 0 fit d order=chain places=0
ofit-sheet,2,squares,0
bounds,none,none,-
size,3,3,-
value,A,1,1
value,B,5,2
value,C,5,2
flow,B,C,1
end,-,-,-
-- err
-- keep s
-- run 0 0 0 verify d s places=0
passes
-- run 0 3 0 fit d order=none places=0
ofit-sheet,2,squares,0
bounds,none,none,-
size,3,3,-
value,A,1,1
value,B,3,1
value,C,2,1
end,-,-,-
-- keep s
-- run 0 0 0 verify d s order=none places=0
passes
-- case an empty table has a sheet and no fit
-- file d
group,value,weight
-- run 0 0 0 fit d places=0
ofit-sheet,2,squares,0
bounds,none,none,-
size,0,0,-
end,-,-,-
-- keep s
-- run 0 0 0 verify d s places=0
passes
-- case the greatest values and weights are fitted
-- file d
group,value,weight
A,1000000000,1000000
-- run 0 1 0 fit d places=0
ofit-sheet,2,squares,0
bounds,none,none,-
size,1,1000000,-
value,A,1000000000,1
end,-,-,-
-- file d
group,value,weight
A,1000000000,10000000000
-- run 0 1 0 fit d places=0
ofit-sheet,2,squares,0
bounds,none,none,-
size,1,10000000000,-
value,A,1000000000,1
end,-,-,-
-- file d
group,value,weight
A,1000000000,1000000
B,-1000000000,1000000
-- run 0 1 0 fit d places=0
ofit-sheet,2,squares,0
bounds,none,none,-
size,2,2000000,-
value,A,0,1
value,B,0,1
flow,A,B,1000000000000000
end,-,-,-
-- keep s
-- run 0 0 0 verify d s places=0
passes
-- case blocks and their flows stand in the order of names
-- file d
group,value,weight
Z,4,1
Y,2,1
X,6,1
C,5,3
B,9,1
A,9,1
-- run 0 1 0 fit d places=0
ofit-sheet,2,squares,0
bounds,none,none,-
size,6,8,-
value,Z,3,1
value,Y,3,1
value,X,21,4
value,C,21,4
value,B,9,1
value,A,9,1
flow,X,C,3
flow,Z,Y,1
end,-,-,-
-- keep s
-- run 0 0 0 verify d s places=0
passes
-- case names that need quotes are quoted
-- file d
value,note,group
2,x,"a,""b"""
1,y,c
-- run 0 1 0 fit d places=0
ofit-sheet,2,squares,0
bounds,none,none,-
size,2,2,-
value,"a,""b""",3,2
value,c,3,2
flow,"a,""b""",c,1
end,-,-,-
-- keep s
-- run 0 0 0 verify d s places=0
passes"#;

const OTHERS: &str = r#"
-- case medians of rows are fitted
-- file d
group,value
A,3
A,7
-- run 0 1 0 fit d loss=median places=0
ofit-sheet,2,median,0
bounds,none,none,-
size,2,2,-
value,A,3,1
end,-,-,-
-- keep s
-- run 0 0 0 verify d s loss=median places=0
passes
-- file d
group,value
A,5
B,3
B,7
C,6
-- run 0 1 0 fit d loss=median places=0
ofit-sheet,2,median,0
bounds,none,none,-
size,4,4,-
value,A,5,1
value,B,5,1
value,C,6,1
end,-,-,-
-- keep s
-- run 0 0 0 verify d s loss=median places=0
passes
-- case an umbrella rises to its peak
-- file d
group,value
A,1
B,5
C,2
D,4
-- run 0 1 0 fit d order=umbrella:B places=0
ofit-sheet,2,squares,0
bounds,none,none,-
size,4,4,-
value,A,1,1
value,B,5,1
value,C,3,1
value,D,3,1
flow,D,C,1
end,-,-,-
-- keep s
-- run 0 0 0 verify d s order=umbrella:B places=0
passes
-- case a control is below its treatments
-- file d
group,value
K,5
T1,3
T2,9
T3,4
-- run 0 1 0 fit d order=tree:K places=0
ofit-sheet,2,squares,0
bounds,none,none,-
size,4,4,-
value,K,4,1
value,T1,4,1
value,T2,9,1
value,T3,4,1
flow,K,T1,1
end,-,-,-
-- keep s
-- run 0 0 0 verify d s order=tree:K places=0
passes
-- case of several children the greatest is absorbed first
-- file d
group,value
R,5
A,6
B,10
-- file o
low,high
A,R
B,R
-- run 0 1 0 fit d order=file:o places=0
ofit-sheet,2,squares,0
bounds,none,none,-
size,3,3,-
value,R,15,2
value,A,6,1
value,B,15,2
flow,B,R,5
end,-,-,-
-- case an order file gives the pairs
-- file d
group,value
A,4
B,2
C,0
-- file o
high,low
B,A
B,A
-- run 0 2 0 fit d order=file:o places=0
ofit-sheet,2,squares,0
bounds,none,none,-
size,3,3,-
value,A,3,1
value,B,3,1
value,C,0,1
flow,A,B,1
end,-,-,-"#;

/// A table as R writes it: a byte order mark, CRLF, quotes and a column of row names.
const SPREADSHEETS: &str = "
-- case a table of a spreadsheet is read
-- file d
\u{FEFF}\"\",\"group\",\"value\",\"weight\"\r\n\"1\",\"Low dose\",1e+05,1\r\n\"2\",\"High dose\",99999.5,1\r
-- run 0 1 0 fit d
ofit-sheet,2,squares,3
bounds,none,none,-
size,2,2,-
value,Low dose,99999750,1
value,High dose,99999750,1
flow,Low dose,High dose,250
end,-,-,-
-- keep s
-- run 0 0 0 verify d s
passes
-- case several marks at the front are taken away
-- file d
\u{FEFF}\u{FEFF}group,value
A,1
-- run 0 1 0 fit d
ofit-sheet,2,squares,3
bounds,none,none,-
size,1,1,-
value,A,1000,1
end,-,-,-";

#[test]
fn chains_are_fitted(rt: HostRuntime) -> Result<(), Fail> {
    rows_hold(&rt, rt.alloc(), CHAINS)
}

#[test]
fn medians_trees_and_order_files_are_fitted(rt: HostRuntime) -> Result<(), Fail> {
    rows_hold(&rt, rt.alloc(), OTHERS)
}

#[test]
fn tables_of_spreadsheets_are_fitted(rt: HostRuntime) -> Result<(), Fail> {
    rows_hold(&rt, rt.alloc(), SPREADSHEETS)
}
