//! A folder on a shelf.
ghost use Rattle.std.specs.Prelude.{◌≡◌, ◌⊎◌, Some, Ok, Err, IfOk};
ghost use Rattle.bench_outside.specs.Shelf.{Contents};
ghost use Rattle.bench_outside.specs.Causes.{Rose};
ghost use Rattle.bench_outside.specs.declared.refusal.FileId.{FileId};
ghost use Rattle.bench_outside.specs.declared.refusal.Refusal.{Refusal};
ghost use Rattle.network_specs.specs.Networks.{File, Unread as unread, network_file_name};
ghost use Rattle.network_folder.specs.Outcomes.{network_in, whole, lacking, name_in, file_id, outcome_of, seen, IsSound};

use crate::error::NetError;
use crate::files::read_main;
use crate::network::Network;
use crate::nodes::read_nodes;
use bench_outside::Shelf;
use network_plan::plan_of;
use sha2::{Digest, Sha256};
use std::alloc::Global;

/// The network of a folder, by the folder's name: its network file is read and checked whole, then for each node, in
/// their order, its description, its terminals and its module. The first file that breaks a rule is the refusal.
pub fn read_network<H: Shelf>(alloc: Global, shelf: &mut H, net: &str) -> Result<Network, NetError>
    // Where the shelf tells what it holds: the network of the folder, or its first refusal.
    ensures found { IfOk result (λ n. (held : Contents) → H.holds shelf.old ≡ Some held → network_in (whole held) net.now ≡ Ok (seen n)) }
    ensures refused { (r : Refusal) (held : Contents) → result ≡ Err (NetError.Refused r) → H.holds shelf.old ≡ Some held
        → outcome_of (network_in (whole held) net.now) ≡ Err (NetError.Refused r) }

    // A file couldn't be read: those before it break no rule, and the last read that failed was of its name.
    ensures unread { (id : FileId) (held : Contents) → result ≡ Err (NetError.Unread id) → H.holds shelf.old ≡ Some held
        → (file : File) × (id ≡ file_id file) × (network_in (lacking held file) net.now ≡ Err (unread file))
        × (name_in held net.now file ≡ Some (H.read_faults shelf.new).last) }

    // Only where a read failed in this call, and no other answer comes where one did.
    ensures rose { (id : FileId) → result ≡ Err (NetError.Unread id) → Rose (H.read_faults shelf.old).count (H.read_faults shelf.new).count }
    ensures named { result ≡ Err (NetError.Unread FileId.Main) → (H.read_faults shelf.new).last ≡ network_file_name net.now }
    ensures unblamed { ((id : FileId) × (result ≡ Err (NetError.Unread id))) ⊎ (H.read_faults shelf.new ≡ H.read_faults shelf.old) }

    // The shelf holds what it held, and no write of it failed.
    ensures holds { H.holds shelf.new ≡ H.holds shelf.old }
    ensures others { H.write_faults shelf.new ≡ H.write_faults shelf.old }

    // Whether or not the shelf tells what it holds: the plan is well formed, and each node has a code that is a unit's.
    ensures sound { IfOk result (λ n. IsSound (seen n)) }
{
    let mut digest = Sha256::new();
    let file = match read_main(alloc, shelf, net, &mut digest) {
        Ok(file) => file,
        Err(error) => return Err(error),
    };
    let units = match read_nodes(alloc, shelf, net, &file.nodes, &mut digest) {
        Ok(units) => units,
        Err(error) => return Err(error),
    };
    let plan = plan_of(alloc, &file, units.plans)?;
    Ok(Network {
        plan,
        codes: units.codes,
        digest: digest.finalize(),
    })
}
