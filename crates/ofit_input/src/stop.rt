ghost use Rattle.std.specs.Prelude.{◌≡◌};
ghost use Rattle.ofit_input.specs.Stops.{table_stop, order_stop, sheet_stop, script_stop};

use crate::refusal::Refusal;
use ofit_script::ScriptFault;
use ofit_sheet::SheetFault;
use ofit_table::{DataFault, OrderFault};

/// Why a job isn't ready.
#[derive(Clone, Copy, Debug, PartialEq, Eq)]
pub enum Stop {
    /// The inputs were refused.
    Refused(Refusal),
    /// The folder failed.
    ReadFault,
    /// Memory was wanting.
    Memory,
}

impl From<DataFault> for Stop {
    ghost from_gives = { λ fault stop. stop ≡ table_stop fault };

    fn from(fault: DataFault) -> Self {
        match fault {
            DataFault::Memory => Stop::Memory,
            fault => Stop::Refused(Refusal::Table(fault)),
        }
    }
}

impl From<OrderFault> for Stop {
    ghost from_gives = { λ fault stop. stop ≡ order_stop fault };

    fn from(fault: OrderFault) -> Self {
        match fault {
            OrderFault::Memory => Stop::Memory,
            fault => Stop::Refused(Refusal::Pairs(fault)),
        }
    }
}

impl From<SheetFault> for Stop {
    ghost from_gives = { λ fault stop. stop ≡ sheet_stop fault };

    fn from(fault: SheetFault) -> Self {
        match fault {
            SheetFault::Memory => Stop::Memory,
            fault => Stop::Refused(Refusal::Sheet(fault)),
        }
    }
}

impl From<ScriptFault> for Stop {
    ghost from_gives = { λ fault stop. stop ≡ script_stop fault };

    fn from(fault: ScriptFault) -> Self {
        match fault {
            ScriptFault::Memory => Stop::Memory,
            fault => Stop::Refused(Refusal::Script(fault)),
        }
    }
}
