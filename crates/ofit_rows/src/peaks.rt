use crate::desk::rows_hold;
use std::test::Fail;

const FITS: &str = r#"
-- case five groups with a peak at the fourth
-- file d
group,value,weight
A,1,1
B,4,1
C,2,1
D,5,1
E,3,1
-- begins 0 0 0 unimodal d places=0
ofit-peaked,1,median,0
peak,D,2,-
value,A,1,-
value,B,2,-
value,C,2,-
value,D,5,-
value,E,3,-
rise,1,-,-
step,A,1,0
-- keep p
-- run 0 0 0 verify-unimodal d p places=0
passes
-- file p
ofit-peaked,1,median,0
peak,D,3,-
value,A,1,-
value,B,2,-
value,C,2,-
value,D,5,-
value,E,3,-
rise,1,-,-
step,A,1,0
rise,2,-,-
step,A,1,0
step,B,4,0
rise,3,-,-
step,A,1,0
step,B,2,1
step,C,2,0
rise,4,-,-
step,A,1,0
step,B,2,1
step,C,2,0
step,D,5,0
rise,5,-,-
step,A,1,0
step,B,2,1
step,C,2,0
step,D,3,1
step,E,3,0
fall,0,-,-
step,A,3,1
step,B,3,0
step,C,3,1
step,D,3,0
step,E,3,0
fall,1,-,-
step,B,4,0
step,C,3,1
step,D,3,0
step,E,3,0
fall,2,-,-
step,C,3,1
step,D,3,0
step,E,3,0
fall,3,-,-
step,D,5,0
step,E,3,0
fall,4,-,-
step,E,3,0
end,-,-,-
-- run 1 0 0 verify-unimodal d p places=0
fails cost
-- case one group
-- file d
group,value
A,4
-- run 0 0 0 unimodal d places=0
ofit-peaked,1,median,0
peak,A,0,-
value,A,4,-
rise,1,-,-
step,A,4,0
fall,0,-,-
step,A,4,0
end,-,-,-
-- case two groups
-- file d
group,value
A,1
B,2
-- run 0 0 0 unimodal d places=0
ofit-peaked,1,median,0
peak,B,0,-
value,A,1,-
value,B,2,-
rise,1,-,-
step,A,1,0
rise,2,-,-
step,A,1,0
step,B,2,0
fall,0,-,-
step,A,1,1
step,B,1,0
fall,1,-,-
step,B,2,0
end,-,-,-
-- case no group
-- file d
group,value
-- run 0 0 0 unimodal d places=2
ofit-peaked,1,median,2
peak,-,0,-
end,-,-,-
-- case the peak isn't at the greatest value
-- file d
group,value
A,3
B,3
C,0
D,0
E,0
F,4
-- begins 0 0 0 unimodal d places=0
ofit-peaked,1,median,0
peak,A,4,-
value,A,3,-
value,B,3,-
value,C,0,-
value,D,0,-
value,E,0,-
value,F,0,-
-- keep p
-- run 0 0 0 verify-unimodal d p places=0
passes
-- case constant data: the first peak
-- file d
group,value
A,7
B,7
C,7
-- begins 0 0 0 unimodal d places=0
ofit-peaked,1,median,0
peak,A,0,-
value,A,7,-
-- case falling data
-- file d
group,value
A,7
B,6
C,1
-- begins 0 0 0 unimodal d places=0
ofit-peaked,1,median,0
peak,A,0,-
value,A,7,-
value,B,6,-
value,C,1,-
-- case a plateau, whose first group is the peak
-- file d
group,value
A,1
B,5
C,5
D,2
-- begins 0 0 0 unimodal d places=0
ofit-peaked,1,median,0
peak,B,0,-
-- case a table that isn't one
-- file d
group
-- run 3 0 0 unimodal d
-- err
ofit: data: no column value"#;

const VERDICTS: &str = r#"
-- case each verdict
-- file d
group,value
A,1
B,2
-- file p
ofit-peaked,1,median,1
peak,B,0,-
value,A,1,-
value,B,2,-
rise,1,-,-
step,A,1,0
rise,2,-,-
step,A,1,0
step,B,2,0
fall,0,-,-
step,A,1,1
step,B,1,0
fall,1,-,-
step,B,2,0
end,-,-,-
-- run 1 0 0 verify-unimodal d p places=0
fails settings
-- file p
ofit-peaked,1,median,0
peak,B,2,-
value,A,2,-
value,B,1,-
rise,1,-,-
step,A,1,0
rise,2,-,-
step,A,1,0
step,B,2,0
fall,0,-,-
step,A,1,1
step,B,1,0
fall,1,-,-
step,B,2,0
end,-,-,-
-- run 1 0 0 verify-unimodal d p places=0
fails shape A
-- file p
ofit-peaked,1,median,0
peak,B,3,-
value,A,1,-
value,B,2,-
rise,1,-,-
step,A,1,0
rise,2,-,-
step,A,1,0
step,B,2,0
fall,0,-,-
step,A,1,1
step,B,1,0
fall,1,-,-
step,B,2,0
end,-,-,-
-- run 1 0 0 verify-unimodal d p places=0
fails cost
-- file p
ofit-peaked,1,median,0
peak,B,0,-
value,A,1,-
value,B,2,-
rise,1,-,-
step,A,1,0
rise,2,-,-
step,A,1,1
step,B,2,0
fall,0,-,-
step,A,1,1
step,B,1,0
fall,1,-,-
step,B,2,0
end,-,-,-
-- run 1 0 0 verify-unimodal d p places=0
fails rise 2 A
-- file p
ofit-peaked,1,median,0
peak,B,0,-
value,A,1,-
value,B,2,-
rise,1,-,-
step,A,1,0
rise,2,-,-
step,A,1,0
step,B,2,0
fall,0,-,-
step,A,1,0
step,B,1,0
fall,1,-,-
step,B,2,0
end,-,-,-
-- run 1 0 0 verify-unimodal d p places=0
fails fall 0 B
-- file p
ofit-peaked,1,median,0
peak,B,1,-
value,A,1,-
value,B,1,-
rise,1,-,-
step,A,1,0
rise,2,-,-
step,A,1,0
step,B,2,0
fall,0,-,-
step,A,1,1
step,B,1,0
fall,1,-,-
step,B,2,0
end,-,-,-
-- run 1 0 0 verify-unimodal d p places=0
fails not least 1
-- case faults of peaked sheets
-- file d
group,value
A,4
-- file p
ofit-peaked,2,median,0
-- run 3 0 0 verify-unimodal d p places=0
-- err
ofit: sheet: bad header
-- file p
ofit-peaked,1,median,0
peak,A,0,-
-- run 3 0 0 verify-unimodal d p places=0
-- err
ofit: sheet: no end
-- file p
ofit-peaked,1,median,0
peak,B,0,-
-- run 3 0 0 verify-unimodal d p places=0
-- err
ofit: sheet record 2: bad record
-- file p
ofit-peaked,1,median,0
peak,A,0,-
value,A,1000000001,-
-- run 3 0 0 verify-unimodal d p places=0
-- err
ofit: sheet record 3: number too large
-- file p
ofit-peaked,1,median,0
peak,A,0,-
value,A,4,-
rise,1,-,-
step,A,4,0
fall,0,-,-
step,A,4,0
end,-,-,-
end,-,-,-
-- run 3 0 0 verify-unimodal d p places=0
-- err
ofit: sheet record 9: record after the end
-- case the greatest cost of a peaked sheet, and one that passes it
-- file d
group,value
A,4
-- file p
ofit-peaked,1,median,0
peak,A,1000000000000000000000000000000,-
value,A,4,-
rise,1,-,-
step,A,4,0
fall,0,-,-
step,A,4,0
end,-,-,-
-- run 1 0 0 verify-unimodal d p places=0
fails cost
-- file p
ofit-peaked,1,median,0
peak,A,1000000000000000000000000000001,-
value,A,4,-
-- run 3 0 0 verify-unimodal d p places=0
-- err
ofit: sheet record 2: number too large"#;

#[test]
fn unknown_peaks_are_fitted(rt: HostRuntime) -> Result<(), Fail> {
    rows_hold(&rt, rt.alloc(), FITS)
}

#[test]
fn peaked_sheets_are_verified(rt: HostRuntime) -> Result<(), Fail> {
    rows_hold(&rt, rt.alloc(), VERDICTS)
}
