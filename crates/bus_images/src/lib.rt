//! What is saved of a bus is made again: each law is the contract of a function with an empty body.
#![tactic(auto)]

ghost use Rattle.std.specs.Prelude.{◌≡◌, ℕ, All, List, length, map};
ghost use Rattle.bus_specs.specs.Bus.{Setup, Bus, among};
ghost use Rattle.bus_specs.specs.Sound.{Rise};
ghost use Rattle.bus_images.specs.Images.{BusImage, bus_image, bus_from, live_nodes};

/// A bus is made again from its setup, its nodes, those that are live, and what is saved of it.
pub fn what_is_saved_is_made_again()
    ensures again { (b : Bus) (last : ℕ) → Rise 0 (map (λ m. m.node) b.members) last
        → bus_from b.setup (map (λ m. m.node) b.members) (live_nodes b) (bus_image b) ≡ b }

    // From each list that tells which of its members are live.
    ensures told { (b : Bus) (live : List ℕ) → All (λ m. among live m.node ≡ m.live) b.members
        → bus_from b.setup (map (λ m. m.node) b.members) live (bus_image b) ≡ b }
{}

/// What a bus is made from is what is saved of it, where there is an image for each node.
pub fn what_is_made_is_saved()
    ensures image { (s : Setup) (nodes live : List ℕ) (i : BusImage) → length i.members ≡ length nodes
        → bus_image (bus_from s nodes live i) ≡ i }
    ensures nodes { (s : Setup) (nodes live : List ℕ) (i : BusImage) → length i.members ≡ length nodes
        → map (λ m. m.node) (bus_from s nodes live i).members ≡ nodes }
{}
