//! The buses.
ghost use Rattle.std.specs.Prelude.{◌≡◌, ◌≤◌, ◌^◌, [], true, option_map, IfSome, IfOk, length};
ghost use Rattle.toml.specs.View.{view, table_view, items_view};
ghost use Rattle.document_specs.specs.Checks.{each};
ghost use Rattle.document_specs.specs.Documents.{are_tables, tables_of, that};
ghost use Rattle.network_specs.specs.Buses as spec;
ghost use Rattle.network_file.specs.Answers.{Gives};

use crate::error::NetworkFileError;
use crate::names::{name_at, name_of};
use crate::parts::{Bus, Rate};
use crate::rows::few_tables;
use document_reading::{at, number_of, row};
use network_specs::NetworkField;
use std::alloc::Global;
use tick_time::BitTime;
use toml::{Table, Value};

impl Bus {
    pub(crate) fn is_named(&self, name: &[u8]) -> bool
        ensures { result ≡ spec.is_bus name.now self.now }
    {
        self.name.as_slice() == name
    }
}

/// The buses of a network with this resolution.
#[tactic(auto, unfolding(network_specs::specs::Buses::buses_of))]
pub(crate) fn read_buses(
    alloc: Global,
    resolution: u64,
    table: &Table,
) -> Result<Vec<Bus>, NetworkFileError>
    requires some_ticks { 1 ≤ resolution }
    requires bound { resolution ≤ 10 ^ 12 }
    ensures gives { Gives (λ v. v.items) result (spec.buses_of resolution (table_view table.now)) }
    ensures few { IfOk result (λ v. length v.items ≤ 4) }
{
    let Some(rows) = few_tables(table, "bus", 1, 4) else {
        return Err(NetworkFileError::Field(NetworkField::Bus, 0));
    };
    buses_in(alloc, resolution, rows)
}

#[tactic(auto, using(document_reading::proofs::NextRow::next_is_table, document_reading::proofs::NextRow::each_next))]
fn buses_in(alloc: Global, resolution: u64, rows: &[Value]) -> Result<Vec<Bus>, NetworkFileError>
    requires some_ticks { 1 ≤ resolution }
    requires bound { resolution ≤ 10 ^ 12 }
    requires tables { are_tables (items_view rows.now) ≡ true }
    ensures gives { Gives (λ v. v.items) result (each (spec.bus_of resolution) [] (tables_of (items_view rows.now))) }
    ensures count { IfOk result (λ v. length v.items ≡ length rows.now) }
{
    let mut buses = Vec::new(alloc);
    for value in rows {
        let bus = read_bus(alloc, resolution, &buses, row(value))?;
        buses.push(bus)?;
    }
    Ok(buses)
}

#[tactic(auto, unfolding(network_specs::specs::Buses::bus_at), using(crate::proofs::Ascii::name_is_ascii))]
fn read_bus(
    alloc: Global,
    resolution: u64,
    before: &[Bus],
    table: &Table,
) -> Result<Bus, NetworkFileError>
    requires some_ticks { 1 ≤ resolution }
    requires bound { resolution ≤ 10 ^ 12 }
    ensures { Gives (λ b. b) result (spec.bus_of resolution before.now (table_view table.now)) }
{
    let place = before.len() as u64;
    let Some(name) = new_name(before, table) else {
        return Err(NetworkFileError::Field(NetworkField::BusName, place));
    };
    let Some(rate) = rate_at(table, "rate", resolution) else {
        return Err(NetworkFileError::Field(NetworkField::BusRate, place));
    };
    let Some(fd_rate) = optional_rate(table, "fd_rate", resolution) else {
        return Err(NetworkFileError::Field(NetworkField::BusFdRate, place));
    };
    Ok(Bus {
        name: name_of(alloc, name)?,
        rate,
        fd_rate,
    })
}

fn new_name<'a>(before: &[Bus], table: &'a Table) -> Option<&'a str>
    ensures text { option_map (λ s. s.now) result ≡ spec.new_bus_name before.now (table_view table.now) }
    ensures fits { IfSome result (λ s. spec.is_name s.now ≡ true) }
{
    match name_at(table) {
        Some(name) => {
            if has_bus(before, name.as_bytes()) {
                None
            } else {
                Some(name)
            }
        }
        None => None,
    }
}

fn has_bus(buses: &[Bus], name: &[u8]) -> bool
    ensures { result ≡ spec.has_bus buses.now name.now }
{
    buses.iter().any(|b| b.is_named(name))
}

fn rate_at(table: &Table, key: &str, resolution: u64) -> Option<Rate>
    requires some_ticks { 1 ≤ resolution }
    requires bound { resolution ≤ 10 ^ 12 }
    ensures { result ≡ spec.rate resolution key.now (table_view table.now) }
{
    match at(table, key) {
        Some(value) => rate_of(value, resolution),
        None => None,
    }
}

fn optional_rate(table: &Table, key: &str, resolution: u64) -> Option<Option<Rate>>
    requires some_ticks { 1 ≤ resolution }
    requires bound { resolution ≤ 10 ^ 12 }
    ensures { result ≡ spec.optional_rate resolution key.now (table_view table.now) }
{
    match at(table, key) {
        Some(value) => match rate_of(value, resolution) {
            Some(rate) => Some(Some(rate)),
            None => None,
        },
        None => Some(None),
    }
}

/// The rate that an integer of 32 bits is, if it has a bit time.
fn rate_of(value: &Value, resolution: u64) -> Option<Rate>
    requires some_ticks { 1 ≤ resolution }
    requires bound { resolution ≤ 10 ^ 12 }
    ensures { result ≡ spec.rate_of resolution (view value.now) }
{
    match number_of(value, 1, 4_294_967_295) {
        Some(bits) => timed_rate(bits as u32, resolution),
        None => None,
    }
}

#[tactic(auto, using(crate::proofs::Rates::is_divided, crate::proofs::Rates::is_not_divided))]
fn timed_rate(bits: u32, resolution: u64) -> Option<Rate>
    requires positive { 1 ≤ bits }
    requires some_ticks { 1 ≤ resolution }
    requires bound { resolution ≤ 10 ^ 12 }
    ensures { result ≡ option_map (spec.rate_of_bits resolution) (that (spec.divides resolution) bits) }
{
    match BitTime::of_rate(bits, resolution) {
        Some(ticks) => Some(Rate { bits, ticks }),
        None => None,
    }
}
