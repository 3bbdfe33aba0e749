/// One observation of a group: its number in the study, its value in units and its weight.
#[derive(Clone, Copy, Debug, PartialEq, Eq)]
pub struct Row {
    pub number: u32,
    pub value: i64,
    pub weight: u64,
}
