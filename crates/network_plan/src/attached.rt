//! The buses on which the terminals of a unit stand.
ghost use Rattle.std.specs.Prelude.{◌≡◌, IfOk};
ghost use Rattle.network_specs.specs.Plans as spec;

use can_frame::Numbers;
use fmu_description::Terminal;
use network_file::Attachment;
use std::alloc::{AllocError, Global};

/// The bus of each terminal, in the order of the description; None where the keys aren't exactly the terminals.
pub fn attached_buses(
    alloc: Global,
    attachments: &[Attachment],
    terminals: &[Terminal],
) -> Result<Option<Numbers>, AllocError>
    ensures { IfOk result (λ buses. buses ≡ spec.attached_buses attachments.now terminals.now) }
{
    if attachments.len() != terminals.len() {
        return Ok(None);
    }
    buses_of_terminals(alloc, attachments, terminals)
}

fn buses_of_terminals(
    alloc: Global,
    attachments: &[Attachment],
    terminals: &[Terminal],
) -> Result<Option<Numbers>, AllocError>
    ensures { IfOk result (λ buses. buses ≡ spec.buses_of_terminals attachments.now terminals.now) }
{
    let mut buses = Vec::new(alloc);
    for terminal in terminals {
        let Some(bus) = bus_of_terminal(attachments, terminal.name.as_slice()) else {
            return Ok(None);
        };
        buses.push(bus)?;
    }
    Ok(Some(Numbers::of(buses)))
}

fn bus_of_terminal(attachments: &[Attachment], name: &[u8]) -> Option<u32>
    ensures { result ≡ spec.bus_of_terminal attachments.now name.now }
{
    for attachment in attachments {
        if attachment.terminal.as_slice() == name {
            return Some(attachment.bus);
        }
    }
    None
}
