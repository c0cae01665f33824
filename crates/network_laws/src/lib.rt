//! Laws of networks: what changes nothing, and what changes only the digest.
#![tactic(auto)]

ghost use Rattle.std.specs.Prelude.{◌≡◌, ◌≤◌, ℕ, false, List, length, Some, Result, Ok};
ghost use Rattle.toml.specs.Data.{Data, Members, member};
ghost use Rattle.document_specs.specs.Documents.{document};
ghost use Rattle.unit_specs.specs.Description.{Description};
ghost use Rattle.network_specs.specs.NetworkFiles.{NetworkFile, network_file_of, most_bytes};
ghost use Rattle.network_specs.specs.Networks.{Folder, NodeParts, Network, framed_files, network_of};
ghost use Rattle.world_specs.specs.Plan.{IsPlan};
ghost use Rattle.network_laws.specs.Ranges.{IsInRange};
ghost use Rattle.network_laws.specs.Keys.{TellTheSame, is_read};
ghost use Rattle.network_laws.specs.Folders.{TellAlike, without_digest, HoldTheSame, IsShort, AreShort, AreSameBytes};

/// What an accepted network file says: its numbers lie in their ranges, a bit of each bus lasts a whole number of ticks,
/// the terminals of a node stand on buses that are there, no two on one, and an error names a bus that is there and its
/// sender or a node that stands on it.
pub fn an_accepted_network_file_holds_together()
    ensures { (bytes : List ℕ) (f : NetworkFile) → network_file_of bytes ≡ Ok f → IsInRange f }
{}

/// The plan of a network that is accepted, however its modules are judged, is well formed: its numbers lie in their
/// ranges; each description is one of a unit; each node stands by each terminal on a bus that is there, on none twice;
/// the members of a bus are exactly the nodes that stand on it; and who detects an error is one of them.
pub fn an_accepted_plan_is_well_formed<Code, Why>()
    ensures { (judge : Description → List ℕ → Result Code Why) (folder : Folder) (net : List ℕ) (n : Network Code)
        → network_of judge folder net ≡ Ok n → IsPlan n.plan }
{}

/// Within the limit, two network files in which the same stands at each key that is read say the same, or are refused
/// alike: keys that aren't read, at the top or in a row, change nothing. In the table at `bus` of a node all are read.
pub fn unknown_keys_change_nothing()
    ensures { (one other : List ℕ) (t u : Members) → length one ≤ most_bytes → length other ≤ most_bytes
        → document one ≡ Some t → document other ≡ Some u → TellTheSame t u → network_file_of one ≡ network_file_of other }
{}

/// A document with one more key at its top that isn't read tells the same.
pub fn one_more_key_tells_the_same()
    ensures { (key : List ℕ) (d : Data) (t : Members) → is_read key ≡ false → TellTheSame (member key d t) t }
{}

/// Folders whose network files and descriptions say the same, and whose modules are the same bytes, are the same plan
/// and codes, or stop alike, however the modules are judged. So unknown keys change neither refusal, plan nor codes.
pub fn alike_folders_are_alike_networks<Code, Why>()
    ensures { (judge : Description → List ℕ → Result Code Why) (one other : Folder) (net : List ℕ) → TellAlike net one other
        → without_digest (network_of judge one net) ≡ without_digest (network_of judge other net) }
{}

/// Folders with the same files are the same network with the same digest, whatever their names are.
pub fn same_files_are_the_same_network<Code, Why>()
    ensures { (judge : Description → List ℕ → Result Code Why) (net name : List ℕ) (one other : Folder) → HoldTheSame net name one other
        → network_of judge one net ≡ network_of judge other name }
{}

/// The bytes under a digest tell each file: where they are the same for as many nodes, each file is the same.
pub fn a_digest_is_of_every_byte<Code>()
    ensures { (text other : List ℕ) (ns ms : List (NodeParts Code)) → length ns ≡ length ms → IsShort text → IsShort other → AreShort ns → AreShort ms
        → framed_files text ns ≡ framed_files other ms → (text ≡ other) × AreSameBytes ns ms }
{}
