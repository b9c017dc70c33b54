// The nodes of a sheet, from 0 up, and the goal: refusals 6 to 8.
#![tactic(auto)]

ghost use Rattle.std.specs.Prelude.{◌≡◌};
ghost use Rattle.refusals.specs.Said.{said_of};
ghost use Rattle.layout.specs.Limits.{most_nodes};
ghost use Rattle.header.specs.Header.{Counted};
ghost use Rattle.findings.specs.Findings.{sort_of};
ghost use Rattle.nodes.specs.Nodes.{nodes, goal_refusal};

use findings::Finding;
use findings::kept::Kept;
use layout::MOST_NODES;
use numbers::NodeNumber;
use refusals::{Cause, Refused};

// What is answered where no node is refused: start is where the goal's subtree starts, f what the goal is found to be.
fn read_goal(goal: NodeNumber, start: NodeNumber, f: Finding) -> Result<(), Refused>
    ensures { said_of result ≡ goal_refusal start.0 (sort_of f) goal.0 }
{
    let place = usize::from(goal.0);
    if start.0 != 0 {
        return Err(Refused {
            cause: Cause::Node,
            place,
        });
    }
    match f {
        Finding::Truth => Ok(()),
        Finding::Integer(_) => Err(Refused {
            cause: Cause::Sort,
            place,
        }),
    }
}

// Refusals 6 to 8.
pub fn read_nodes(sheet: &[u8]) -> Result<(), Refused>
    requires { Counted most_nodes sheet.now }
    ensures { said_of result ≡ nodes sheet.now }
{
    let n = header::node_count(sheet);
    let v = header::variable_count(sheet);
    // Two arrays, since `order` is lent the one and `findings` the other.
    let mut starts = [0u16; MOST_NODES];
    let mut findings = [Kept::Truth; MOST_NODES];
    for i in 0..n {
        let node = NodeNumber(i as u16);
        let r = records::record_at(sheet, node);
        if !order::right_place(r, v, node, &starts) {
            return Err(Refused {
                cause: Cause::Node,
                place: i,
            });
        }
        let finding = findings::node_step(sheet, r, &findings).map_err(move |cause| Refused {
            cause,
            place: i,
        })?;
        starts[i] = order::start(r, node, &starts).0;
        findings[i] = findings::packed(finding);
    }
    let goal = NodeNumber((n - 1) as u16);
    let start = order::start_of(goal, &starts);
    read_goal(goal, start, findings::finding_at(goal, &findings))
}
