// Where a node's operands must stand, and what else its record must keep: refusal 6.
// How far `starts` is filled is said beside a node's number: what binds one argument by another is a clause, and no type.
#![tactic(auto)]

ghost use Rattle.std.specs.Prelude.{◌≡◌, ◌+◌, ◌*◌, ◌≤◌, ◌<◌, [], ◌∷◌, true, ◌&&◌, eqb};
ghost use Rattle.lists.specs.Places.{at};
ghost use Rattle.numbers.specs.Bytes.{word_limit};
ghost use Rattle.layout.specs.Limits.{most_nodes};
ghost use Rattle.layout.specs.Starts.{shape_at, operands_of, start_by, Ordered};
ghost use Rattle.layout.specs.LaidOut.{unused_of};
ghost use Rattle.order.specs.Order.{is_known, in_order, is_listed, rightly_placed, Falling};

use kinds::{Record, Shape};
use layout::MOST_NODES;
use numbers::NodeNumber;

fn known(h: Shape) -> bool
    ensures { result ≡ is_known h }
{
    h != Shape::Wrong
}

// The sum of the fields that the shape doesn't use.
fn unused(h: Shape, r: Record) -> u32
    ensures { (result ≡ unused_of h r) × (result < 4 * word_limit) }
{
    let a = u32::from(r.a);
    let b = u32::from(r.b);
    let c = u32::from(r.c);
    let value = u32::from(r.value);
    match h {
        Shape::Wrong => 0,
        Shape::Bare => a + b + c + value,
        Shape::Valued => a + b + c,
        Shape::Named | Shape::One(_) => b + c + value,
        Shape::Two(_, _) => c + value,
        Shape::Three(_, _, _) => value,
    }
}

// Whether a variable that the record names is below v.
fn listed(h: Shape, r: Record, v: usize) -> bool
    ensures { result ≡ is_listed h r v }
{
    h != Shape::Named || usize::from(r.a) < v
}

// Whether x is the node just before e.
fn precedes(x: NodeNumber, e: NodeNumber) -> bool
    ensures { result ≡ eqb (x.0 + 1) e.0 }
{
    u32::from(x.0) + 1 == u32::from(e.0)
}

// Where the subtree of node x starts.
pub fn start_of(x: NodeNumber, starts: &[u16; MOST_NODES]) -> NodeNumber
    requires { x.0 < most_nodes }
    ensures { result.0 ≡ at 0 starts.now x.0 }
{
    NodeNumber(starts[x.0 as usize])
}

// Whether b is the node just before e, and a the one just before b's subtree.
fn two_ordered(a: NodeNumber, b: NodeNumber, e: NodeNumber, starts: &[u16; MOST_NODES]) -> bool
    requires { e.0 ≤ most_nodes }
    ensures { result ≡ in_order (at 0 starts.now) e.0 (b.0 ∷ a.0 ∷ []) }
{
    precedes(b, e) && precedes(a, start_of(b, starts))
}

fn three_ordered(
    a: NodeNumber,
    b: NodeNumber,
    c: NodeNumber,
    e: NodeNumber,
    starts: &[u16; MOST_NODES],
) -> bool
    requires { (e.0 ≤ most_nodes) × Falling e.0 starts.now }
    ensures { result ≡ in_order (at 0 starts.now) e.0 (c.0 ∷ b.0 ∷ a.0 ∷ []) }
{
    precedes(c, e) && two_ordered(a, b, start_of(c, starts), starts)
}

// Whether the operands of node n stand where the order puts them.
fn ordered(h: Shape, r: Record, n: NodeNumber, starts: &[u16; MOST_NODES]) -> bool
    requires { (n.0 ≤ most_nodes) × Falling n.0 starts.now }
    ensures { result ≡ in_order (at 0 starts.now) n.0 (operands_of h r) }
{
    match h {
        Shape::Wrong | Shape::Bare | Shape::Valued | Shape::Named => true,
        Shape::One(_) => precedes(NodeNumber(r.a), n),
        Shape::Two(_, _) => two_ordered(NodeNumber(r.a), NodeNumber(r.b), n, starts),
        Shape::Three(_, _, _) => {
            three_ordered(NodeNumber(r.a), NodeNumber(r.b), NodeNumber(r.c), n, starts)
        }
    }
}

// Whether the record of node n keeps all that refusal 6 asks.
#[tactic(auto, unfolding(crate::specs::Order::rightly_placed))]
pub fn right_place(r: Record, v: usize, n: NodeNumber, starts: &[u16; MOST_NODES]) -> bool
    requires { (n.0 ≤ most_nodes) × Falling n.0 starts.now }
    ensures { result ≡ rightly_placed r v n.0 (at 0 starts.now) }
{
    let h = kinds::shape_of(r.kind);
    known(h)
        && unused(h, r) + u32::from(r.spare) == 0
        && ordered(h, r, n, starts)
        && listed(h, r, v)
}

// Where the subtree of node n starts, its operands being in order.
pub fn start(r: Record, n: NodeNumber, starts: &[u16; MOST_NODES]) -> NodeNumber
    requires { (n.0 ≤ most_nodes) × Falling n.0 starts.now × Ordered (at 0 starts.now) n.0 (operands_of (shape_at r) r) }
    ensures { result.0 ≡ start_by (shape_at r) r n.0 (at 0 starts.now) }
{
    match kinds::shape_of(r.kind) {
        Shape::Wrong | Shape::Bare | Shape::Valued | Shape::Named => n,
        Shape::One(_) | Shape::Two(_, _) | Shape::Three(_, _, _) => {
            start_of(NodeNumber(r.a), starts)
        }
    }
}
