//! The sessions of one moment, run one after another in any order.

ghost use Rattle.std.specs.Prelude.{◌≡◌, ℕ, List, flat_map, map};
ghost use Rattle.bus_specs.specs.Bus.{Bus};
ghost use Rattle.world_specs.specs.Units.{Units};
ghost use Rattle.world_specs.specs.World.{Node, AreDistinct};
ghost use Rattle.world_specs.specs.Sessions.{node_after};
ghost use Rattle.world_laws.specs.Words.{Covers, nodes_in_order, progress_in_order, turns_of};

/// Run in an order that has each number once and all that take part, the sessions leave the nodes of
/// the event.
pub fn any_order_gives_the_same_nodes<S>()
    ensures same { (u : Units S) (buses : List Bus) (t : ℕ) (nodes : List (Node S)) (order : List ℕ) → AreDistinct order
        → Covers buses t nodes order → nodes_in_order u buses t nodes order ≡ map (node_after u buses t) nodes }
{}

/// So two orders leave the same nodes.
pub fn two_orders_give_the_same_nodes<S>()
    ensures same { (u : Units S) (buses : List Bus) (t : ℕ) (nodes : List (Node S)) (one other : List ℕ) → AreDistinct one
        → AreDistinct other → Covers buses t nodes one → Covers buses t nodes other
        → nodes_in_order u buses t nodes one ≡ nodes_in_order u buses t nodes other }
{}

/// Whatever the order, the sessions that come out are those of the nodes as they were before the event.
pub fn each_session_is_from_the_state_before<S>()
    ensures same { (u : Units S) (buses : List Bus) (t : ℕ) (nodes : List (Node S)) (order : List ℕ) → AreDistinct order
        → (progress_in_order u buses t nodes order).turns ≡ flat_map (turns_of u buses t nodes) order }
{}
