use ofit_script::ScriptFault;
use ofit_sheet::SheetFault;
use ofit_table::{DataFault, OrderFault};

/// Which of the named files a refusal speaks of.
#[derive(Clone, Copy, Debug, PartialEq, Eq)]
pub enum Which {
    /// The data file.
    Table,
    /// The order file.
    Pairs,
    /// The sheet.
    Sheet,
    /// The script.
    Script,
}

/// Why the inputs were refused.
#[derive(Clone, Copy, Debug, PartialEq, Eq)]
pub enum Refusal {
    /// The folder holds no file of that name.
    FileMissing(Which),
    /// The file is longer than 33,554,432 bytes.
    FileLong(Which),
    /// The data file is no table of rows.
    Table(DataFault),
    /// The order doesn't give pairs of the study's groups.
    Pairs(OrderFault),
    /// The sheet can't be read.
    Sheet(SheetFault),
    /// The script can't be read.
    Script(ScriptFault),
    /// There are more than 200 groups, which is too many to fit an unknown peak.
    TooManyForPeak,
}
