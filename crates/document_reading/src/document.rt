//! A document from its bytes.
ghost use Rattle.std.specs.Prelude.{◌≡◌, Some, None, IfOk, IsErrOf};
ghost use Rattle.toml.specs.View.{table_view};
ghost use Rattle.document_specs.specs.Documents as spec;

use std::alloc::Global;
use toml::Table;

/// Why there is no document.
#[derive(Debug, Drop)]
pub enum DocumentError {
    /// The bytes are no document.
    Broken,
    /// Memory ran out.
    Memory,
}

/// The document of these bytes. It is broken where they aren't UTF-8, where their text is no document, where a key
/// stands twice, and where arrays and tables nest too deep for `toml`.
#[tactic(auto, using(crate::proofs::Bytes::document_found, crate::proofs::Bytes::document_none))]
pub fn read_document(alloc: Global, bytes: &[u8]) -> Result<Table, DocumentError>
    ensures found { IfOk result (λ t. spec.document bytes.now ≡ Some (table_view t)) }
    ensures broken { IsErrOf result DocumentError.Broken → spec.document bytes.now ≡ None }
{
    match toml::table_from_slice(alloc, bytes) {
        Ok(table) => Ok(table),
        Err(fault) => {
            if fault.is_memory() {
                Err(DocumentError::Memory)
            } else {
                Err(DocumentError::Broken)
            }
        }
    }
}
