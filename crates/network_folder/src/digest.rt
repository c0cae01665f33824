//! The digest of the bytes that were read.
ghost use Rattle.network_specs.specs.Networks.{framed};
ghost use Rattle.network_folder.specs.Parts.{Adds};

use sha2::{Digest, Sha256};

/// Adds bytes behind their length, which is eight bytes, the lowest first.
pub(crate) fn add_framed(digest: &mut Sha256, bytes: &[u8])
    ensures { Adds digest.old digest.new (framed bytes.now) }
{
    let length = (bytes.len() as u64).to_le_bytes();
    digest.update(length.as_slice());
    digest.update(bytes);
}
