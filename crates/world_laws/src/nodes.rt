//! Which nodes an event changes, and whose units have sessions.

ghost use Rattle.std.specs.Prelude.{◌≡◌, ℕ, List, All, false, true, Some, slice_get};
ghost use Rattle.bus_specs.specs.Bus.{Bus};
ghost use Rattle.run_specs.specs.Run.{behind};
ghost use Rattle.world_specs.specs.Units.{Units};
ghost use Rattle.world_specs.specs.World.{World, Node};
ghost use Rattle.world_specs.specs.Next.{Event, Sessions, at};
ghost use Rattle.world_specs.specs.Sessions.{node_after, turns, takes_part};
ghost use Rattle.world_specs.specs.Step.{world_behind};
ghost use Rattle.world_specs.specs.Network.{network, node_closed};
ghost use Rattle.world_specs.specs.Fits.{is_live};
ghost use Rattle.world_laws.specs.Words.{LastAt, IsDownOrOver, IsNewOrLive, IsSessions};

/// The sessions of a moment are of nodes that are new or live.
pub fn others_have_no_session<S>()
    ensures new_or_live { (u : Units S) (buses : List Bus) (t : ℕ) (nodes : List (Node S))
        → All (λ x. IsNewOrLive x.node.standing) (turns u buses t nodes) }
{}

/// A node, its unit among it, is changed by an event only if that is Sessions and the node takes part.
pub fn only_who_takes_part_changes<S>()
    ensures same { (u : Units S) (w : World S) (e : Event) (place : ℕ) (n : Node S)
        → (IsSessions e.what → takes_part w.buses e.moment n ≡ false) → slice_get w.nodes place ≡ Some n
        → slice_get (world_behind u w e).nodes place ≡ Some n }

    // Then it is what its own session makes of it.
    ensures own { (u : Units S) (w : World S) (t place : ℕ) (n : Node S) → slice_get w.nodes place ≡ Some n
        → slice_get (world_behind u w (at Sessions t)).nodes place ≡ Some (node_after u w.buses t n) }
{}

/// A close is of the live nodes alone, and behind it each of them is down or over.
pub fn only_live_nodes_are_closed<S>()
    ensures same { (u : Units S) (n : Node S) → is_live n.standing ≡ false → node_closed u n ≡ n }
    ensures out { (u : Units S) (n : Node S) → is_live n.standing ≡ true → IsDownOrOver (node_closed u n).standing }
{}

/// A node that is down or over stays so along every run.
pub fn who_is_out_stays_out<S>()
    ensures same { (u : Units S) (stop events place : ℕ) (w : World S) (n : Node S) → IsDownOrOver n.standing
        → slice_get w.nodes place ≡ Some n → slice_get (behind (network u stop) events w).nodes place ≡ Some n }
{}

/// A node that takes part and stays live has had its last session now, so that its next one is told this
/// moment.
pub fn sessions_join<S>()
    ensures last { (u : Units S) (buses : List Bus) (t : ℕ) (n : Node S) → takes_part buses t n ≡ true
        → LastAt t (node_after u buses t n).standing }
{}
