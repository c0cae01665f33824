//! Whether a module is that of a unit.
use crate::modules::{changed, read};
use case_words::Unanswered;
use fmi_binding::{BindError, check_module};
use std::alloc::Global;

/// Whether the module, changed so, exports what a unit has; else the first row that it lacks, or that is of another
/// kind or type.
pub fn bind(alloc: Global, module: &[u8], change: &str) -> Result<String, Unanswered> {
    let bytes = changed(alloc, module, change)?;
    let module = read(alloc, &bytes)?;
    match check_module(&module) {
        Ok(()) => Ok(String::from_str(alloc, "bound")?),
        Err(BindError::Missing(row)) => Ok(format!(in alloc; "Missing {row}")?),
        Err(BindError::Signature(row)) => Ok(format!(in alloc; "Signature {row}")?),
    }
}
