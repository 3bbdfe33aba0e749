//! A set of nodes as a list.

ghost use Rattle.std.specs.Prelude.{◌≡◌, ◌<◌, ◌≤◌, ℕ, IfOk, length};
ghost use Rattle.ofit_flow.specs.Network.{members};
ghost use Rattle.ofit_cut.specs.Members.{AreNodes, has_node, is_on_side};

use ofit_flow::Flowed;
use std::alloc::{AllocError, Global};
use std::marker::Model;

/// The nodes of a set, in rising order.
#[derive(Drop)]
pub struct Members {
    nodes: Vec<u32>,
}

impl Model for Members {
    ghost use Rattle.std.specs.Prelude.{List, ℕ};

    ghost Value = { List ℕ };

    ghost view = { λ m. m.nodes.items };
}

impl Members {
    /// The nodes below `count` that are on the source side of the flow, or those that aren't.
    pub(crate) fn of_side(
        alloc: Global,
        flowed: &Flowed,
        count: u32,
        inside: bool,
    ) -> Result<Members, AllocError>
        requires { count ≤ length flowed.now.source_side }
        ensures listed { IfOk result (AreNodes count) }
        ensures same { IfOk result (λ nodes. (node : ℕ) → node < count
            → has_node nodes node ≡ is_on_side (members flowed.now.source_side) inside node) }
    {
        let mut nodes = Vec::new(alloc);
        for node in 0..count {
            if flowed.source_side(node) == inside {
                nodes.push(node)?;
            }
        }
        Ok(Members { nodes })
    }

    /// The nodes, in rising order.
    pub fn nodes(&self) -> &[u32]
        ensures { result.now ≡ self.now }
    {
        self.nodes.as_slice()
    }
}
