ghost use Rattle.std.specs.Prelude.{◌≡◌};
ghost use Rattle.ofit_table.specs.Columns.{column_name};

use std::fmt;

/// A column of a data table or of an order file.
#[derive(Clone, Copy, Debug, PartialEq, Eq)]
pub enum Column {
    /// The name of a row's group.
    Group,
    /// The value of a row.
    Value,
    /// The weight of a row; may be left out.
    Weight,
    /// The group that is to be at most the other one.
    Low,
    /// The group that is to be at least the other one.
    High,
}

impl Column {
    /// What the header has for the column.
    pub fn name(self) -> &'static str
        ensures { result.now ≡ column_name self }
    {
        match self {
            Column::Group => "group",
            Column::Value => "value",
            Column::Weight => "weight",
            Column::Low => "low",
            Column::High => "high",
        }
    }
}

impl fmt::Display for Column {
    fn fmt<W: fmt::Write>(&self, f: &mut fmt::Formatter<W>) -> fmt::Result {
        f.write_str(self.name())
    }
}
