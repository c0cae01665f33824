//! The name that an identifier is.
ghost use Rattle.std.specs.Prelude.{◌≡◌, true, IfOk};
ghost use Rattle.document_specs.specs.Documents.{is_identifier};

use can_frame::Name;
use std::alloc::{AllocError, Global};

/// A copy of an identifier.
#[tactic(auto, using(crate::proofs::Ascii::identifier_is_ascii))]
pub(crate) fn name_of(alloc: Global, text: &str) -> Result<Name, AllocError>
    requires { is_identifier text.now ≡ true }
    ensures { IfOk result (λ n. n ≡ text.now) }
{
    let bytes = Vec::from_slice(alloc, text.as_bytes())?;
    Ok(Name::of(bytes).unwrap())
}
