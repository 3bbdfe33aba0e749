ghost use Rattle.std.specs.Prelude.{◌≡◌, IfOk, length};

use ofit_flow::{Net, Phases};
use std::alloc::{AllocError, Global};
use std::test::Fail;

/// A net of four nodes and five edges, from the first node to the last.
fn four_nodes(alloc: Global) -> Result<Net, AllocError>
    ensures nodes { IfOk result (λ net. net.nodes ≡ 4) }
    ensures edges { IfOk result (λ net. length net.edges ≡ 5) }
{
    let mut net = Net::new(alloc, 4, 0, 3)?;
    net.add_edge(0, 1, 3)?;
    net.add_edge(0, 2, 2)?;
    net.add_edge(1, 3, 2)?;
    net.add_edge(2, 3, 3)?;
    net.add_edge(1, 2, 1)?;
    Ok(net)
}

/// Levels are built for the paths of two edges, for the one of three, and once more in vain. Each side is one node.
#[test]
fn three_phases(rt: HostRuntime) -> Result<(), Fail> {
    let mut net = four_nodes(rt.alloc())?;
    let mut phases = Phases::new();
    let flowed = net.max_flow(&mut phases)?;
    assert_eq!(rt; (phases.count, flowed.value()), (3, 5));
    for node in 0..4 {
        let sides = (flowed.source_side(node), flowed.sink_side(node));
        assert_eq!(rt; sides, (node == 0, node == 3), "node {node}");
    }
    Ok(())
}
