use crate::text::Text;
use ofit_study::{LossKind, Pattern, Settings};

/// The order of the groups: a pattern, or a file with its pairs.
#[derive(Drop)]
pub enum OrderChoice {
    /// A pattern over the study's groups.
    Shaped(Pattern),
    /// The name of an order's file, of at least one byte.
    File(Text),
}

/// What a fit is made from.
pub struct Inputs {
    /// The name of the data table.
    pub table: Text,
    /// The order of the groups.
    pub order: OrderChoice,
    /// The settings of the fit, within their limits.
    pub settings: Settings,
}

/// Written out, so that a proof meets one call where a value is let go.
impl Drop for Inputs {
    fn drop(self) {
        let Inputs {
            table,
            order,
            settings: _,
        } = self;
        drop(table);
        drop(order);
    }
}

/// The shape of a sample's order.
#[derive(Clone, Copy, Debug, PartialEq, Eq)]
pub enum Kind {
    /// Each group is at most the next.
    Chain,
    /// The groups rise to one of them and fall from it.
    Umbrella,
    /// One group is at most each other.
    Tree,
    /// Any pairs.
    General,
}

/// What a sample is made from.
#[derive(Clone, Copy, Debug, PartialEq, Eq)]
pub struct SampleJob {
    /// The seed of the generator.
    pub seed: u32,
    /// The count of groups, from 1 to 2,000.
    pub groups: u32,
    /// The count of rows, from the count of groups to 10,000.
    pub rows: u32,
    /// The shape of the order.
    pub kind: Kind,
    /// The loss of the fit.
    pub loss: LossKind,
}

/// What the words ask for.
pub enum Job {
    /// Print the sheet of a fit.
    Fit(Inputs),
    /// Print the report of a fit.
    Report(Inputs),
    /// Verify the sheet of this name.
    Verify(Inputs, Text),
    /// Run the script of this name.
    Session(Inputs, Text),
    /// Print the peaked sheet of a table at these decimal places.
    Unimodal(Text, u32),
    /// Verify the peaked sheet of the second name, of the table of the first, at these decimal places.
    VerifyUnimodal(Text, Text, u32),
    /// Print the level table for so many groups of equal weight, from 1 to 34.
    Levels(u32),
    /// Make a study and print its summary.
    Sample(SampleJob),
}

/// Written out, so that a proof meets one call where a value is let go.
impl Drop for Job {
    fn drop(self) {
        match self {
            Job::Fit(inputs) | Job::Report(inputs) => drop(inputs),
            Job::Verify(inputs, name) | Job::Session(inputs, name) => {
                drop(inputs);
                drop(name);
            }
            Job::Unimodal(table, _) => drop(table),
            Job::VerifyUnimodal(table, name, _) => {
                drop(table);
                drop(name);
            }
            Job::Levels(_) | Job::Sample(_) => {}
        }
    }
}
