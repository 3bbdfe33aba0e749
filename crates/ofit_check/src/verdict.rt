/// What is wrong with a sheet, the first thing that is. Places and pairs count from 0, flows from 1.
#[derive(Clone, Copy, Debug, PartialEq, Eq)]
pub enum Verdict {
    /// The loss, the decimal places or a bound isn't the study's.
    Settings,
    /// The size isn't that of the study.
    Size,
    /// The group at this place, the first such one, has no value.
    GroupMissing(u32),
    /// The values break this pair, the first such one.
    Disobeys(u32),
    /// The value of the group at this place, the first such one, is outside a bound.
    OutOfBounds(u32),
    /// This flow, the first such one, isn't on a pair.
    FlowNotPair(u32),
    /// The pair of this flow, the first such one, isn't after that of the flow before it.
    FlowOrder(u32),
    /// The ends of this flow, the first such one, have different values.
    FlowNotTight(u32),
    /// The flow out of the group at this place, the first such one, less the flow into it is outside
    /// the group's span.
    Balance(u32),
    /// Nothing is wrong.
    Passes,
}
