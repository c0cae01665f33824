//! Sizes of variables and of areas.
ghost use Rattle.std.specs.Prelude.{◌≡◌, ◌≤◌, ◌+◌, ◌*◌, IfOk};
ghost use Rattle.binding_specs.specs.Guests.{greatest_size, most_bytes, area_size};
ghost use Rattle.fmi_binding.specs.Coming.{then_in, numbers_in, address_in};

use fmi_states::Broken;
use fmu_description::{Description, Terminal};

/// The greatest length of the binary variables of terminals, in bytes.
fn greatest_size(terminals: &[Terminal]) -> u32
    ensures { result ≡ greatest_size terminals.now }
{
    let mut greatest = 0;
    let mut left = terminals;
    while let [terminal, others @ ..] = left {
        greatest = greatest.max(terminal.rx_max.max(terminal.tx_max));
        left = others;
    }
    greatest
}

/// How long the area is, in bytes.
pub(crate) fn area_size(description: &Description) -> u32
    requires { greatest_size description.now.terminals ≤ 65536 }
    ensures { result ≡ area_size description.now }
{
    64 + greatest_size(&description.terminals)
}

/// The greatest length of a variable, by its value reference.
pub(crate) fn most_bytes(terminals: &[Terminal], reference: u32) -> u32
    ensures { result ≡ most_bytes terminals.now reference }
{
    let mut left = terminals;
    while let [terminal, others @ ..] = left {
        if terminal.rx_data == reference {
            return terminal.rx_max;
        }
        if terminal.tx_data == reference {
            return terminal.tx_max;
        }
        left = others;
    }
    0
}

/// The address that was returned for an area of this size, in a memory of so many pages.
pub(crate) fn address_in(
    returned: Result<Option<u64>, Broken>,
    size: u32,
    pages: u32,
) -> Result<u32, Broken>
    requires { pages ≤ 256 }
    ensures address { result ≡ then_in (numbers_in returned) (address_in size pages) }
    ensures within { IfOk result (λ address. address ≤ 16777216) }
{
    match returned {
        Err(why) => Err(why),
        Ok(None) => Err(Broken::BadReply),
        Ok(Some(number)) => {
            let end = u64::from(pages) * 65536;
            if number <= end && number + u64::from(size) <= end {
                Ok(number as u32)
            } else {
                Err(Broken::BadBuffer)
            }
        }
    }
}
