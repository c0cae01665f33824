//! The files of a folder, one by one.
ghost use Rattle.std.specs.Prelude.{◌<◌, ◌^◌};
ghost use Rattle.wasm_types.specs.Back.{nested_module};
ghost use Rattle.network_specs.specs.Networks as spec;
ghost use Rattle.network_folder.specs.Parts.{ReadsFile, limited, file_said, description_said, module_said};

use crate::digest::add_framed;
use crate::error::NetError;
use crate::judging::{description_of, module_of, network_file_of, refused};
use crate::names::{description_name, module_name, network_file_name};
use bench_outside::{FileId, Shelf, Why};
use fmu_description::Description;
use network_file::{NetworkFile, Node};
use sha2::Sha256;
use std::alloc::Global;
use wasm_validate::Checked;
use whole_files::{FetchError, fetch};

/// The greatest length of a network file and of a description, in bytes.
const TEXT_LIMIT: u64 = 1_048_576;

/// The greatest length of a module's file, in bytes.
const MODULE_LIMIT: u64 = 4_194_304;

/// All bytes of a file, which are added to the digest.
fn fetch_file<H: Shelf>(
    alloc: Global,
    shelf: &mut H,
    file: FileId,
    name: &str,
    limit: u64,
    digest: &mut Sha256,
) -> Result<Vec<u8>, NetError>
    requires { limit < 2 ^ 32 }
    ensures { ReadsFile H.Shelf shelf.old shelf.new digest.old digest.new file name.now (λ v. v.items) (limited file limit) result }
{
    match fetch(alloc, shelf, name, limit) {
        Ok(bytes) => {
            add_framed(digest, &bytes);
            Ok(bytes)
        }
        Err(FetchError::Unread) => Err(NetError::Unread(file)),
        Err(FetchError::Size) => Err(refused(file, Why::Size, limit)),
        Err(FetchError::Memory) => Err(NetError::Memory),
    }
}

/// The network file.
pub(crate) fn read_main<H: Shelf>(
    alloc: Global,
    shelf: &mut H,
    net: &str,
    digest: &mut Sha256,
) -> Result<NetworkFile, NetError>
    ensures { ReadsFile H.Shelf shelf.old shelf.new digest.old digest.new FileId.Main (spec.network_file_name net.now) (λ f. f) file_said result }
{
    let name = network_file_name(alloc, net)?;
    let bytes = match fetch_file(
        alloc,
        shelf,
        FileId::Main,
        name.as_str(),
        TEXT_LIMIT,
        digest,
    ) {
        Ok(bytes) => bytes,
        Err(error) => return Err(error),
    };
    network_file_of(alloc, &bytes)
}

/// The description of a node's unit.
pub(crate) fn read_unit<H: Shelf>(
    alloc: Global,
    shelf: &mut H,
    net: &str,
    place: u32,
    node: &Node,
    digest: &mut Sha256,
) -> Result<Description, NetError>
    ensures { ReadsFile H.Shelf shelf.old shelf.new digest.old digest.new (FileId.Description place) (spec.description_name net.now node.now.fmu) (λ d. d) (description_said place) result }
{
    let file = FileId::Description(place);
    let name = description_name(alloc, net, &node.fmu)?;
    let bytes = match fetch_file(alloc, shelf, file, name.as_str(), TEXT_LIMIT, digest) {
        Ok(bytes) => bytes,
        Err(error) => return Err(error),
    };
    description_of(alloc, place, &bytes)
}

/// The module of a node's unit.
pub(crate) fn read_code<H: Shelf>(
    alloc: Global,
    shelf: &mut H,
    net: &str,
    place: u32,
    node: &Node,
    description: &Description,
    digest: &mut Sha256,
) -> Result<Checked, NetError>
    ensures { ReadsFile H.Shelf shelf.old shelf.new digest.old digest.new (FileId.Module place) (spec.module_name net.now node.now.fmu description.now.identifier) nested_module (module_said place description.now) result }
{
    let file = FileId::Module(place);
    let name = module_name(alloc, net, &node.fmu, &description.identifier)?;
    let bytes = match fetch_file(alloc, shelf, file, name.as_str(), MODULE_LIMIT, digest) {
        Ok(bytes) => bytes,
        Err(error) => return Err(error),
    };
    module_of(alloc, place, description, &bytes)
}
