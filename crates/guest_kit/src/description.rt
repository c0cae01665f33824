//! Descriptions of guests.
ghost use Rattle.std.specs.Prelude.{◌≡◌, ◌≤◌, ◌==◌, ◌++◌, false, true, Some, IfOk, IsUtf8, codes, string_bytes};
ghost use Rattle.toml.specs.Data.{table, members_depth};
ghost use Rattle.toml.specs.View.{table_view};
ghost use Rattle.toml.specs.Parse.{parse_document};
ghost use Rattle.document_specs.specs.Documents.{is_identifier};
ghost use Rattle.description_specs.specs.Descriptions as spec;
ghost use Rattle.guest_kit.specs.Described.{guest_description, described};
ghost use Rattle.guest_kit.specs.Templates.{insert_member, co_simulation};
ghost use Rattle.guest_kit.specs.Templates as templates;

use std::alloc::{AllocError, Global};
use toml::{Table, Value};

// What stands before clocks, binaries and terminals.
const HEAD: &str = "fmiVersion = '3.0'
modelName = 'guest'
instantiationToken = 'guest'
";

// Terminal 0, and its variables.
const FIRST: &str = "[[Clock]]
name = 'CAN0.Rx_Clock'
valueReference = 0
causality = 'input'
intervalVariability = 'triggered'
[[Clock]]
name = 'CAN0.Tx_Clock'
valueReference = 2
causality = 'output'
intervalVariability = 'triggered'
[[Binary]]
name = 'CAN0.Rx_Data'
valueReference = 1
causality = 'input'
clocks = [0]
maxSize = 8192
[[Binary]]
name = 'CAN0.Tx_Data'
valueReference = 3
causality = 'output'
clocks = [2]
maxSize = 8192
[[Terminal]]
name = 'CAN0'
Rx_Data = 1
Rx_Clock = 0
Tx_Data = 3
Tx_Clock = 2
";

// Terminal 1.
const SECOND: &str = "[[Clock]]
name = 'CAN1.Rx_Clock'
valueReference = 4
causality = 'input'
intervalVariability = 'triggered'
[[Clock]]
name = 'CAN1.Tx_Clock'
valueReference = 6
causality = 'output'
intervalVariability = 'triggered'
[[Binary]]
name = 'CAN1.Rx_Data'
valueReference = 5
causality = 'input'
clocks = [4]
maxSize = 8192
[[Binary]]
name = 'CAN1.Tx_Data'
valueReference = 7
causality = 'output'
clocks = [6]
maxSize = 8192
[[Terminal]]
name = 'CAN1'
Rx_Data = 5
Rx_Clock = 4
Tx_Data = 7
Tx_Clock = 6
";

// The countdown clock.
const TIMER: &str = "[[Clock]]
name = 'Timer'
valueReference = 100
causality = 'input'
intervalVariability = 'countdown'
";

// One text of four.
fn joined(
    alloc: Global,
    one: &str,
    two: &str,
    three: &str,
    four: &str,
) -> Result<String, AllocError>
    ensures { IfOk result (λ s. string_bytes s ≡ ((one.now ++ two.now) ++ three.now) ++ four.now) }
{
    let mut text = String::from_str(alloc, one)?;
    text.push_str(two)?;
    text.push_str(three)?;
    text.push_str(four)?;
    Ok(text)
}

fn with_first(alloc: Global) -> Result<String, AllocError>
    ensures { IfOk result (λ s. parse_document (string_bytes s) ≡ Some (templates.template false false)) }
{
    let text = joined(alloc, HEAD, FIRST, "", "")?;
    Ok(text)
}

fn with_timer(alloc: Global) -> Result<String, AllocError>
    ensures { IfOk result (λ s. parse_document (string_bytes s) ≡ Some (templates.template false true)) }
{
    let text = joined(alloc, HEAD, FIRST, "", TIMER)?;
    Ok(text)
}

fn with_second(alloc: Global) -> Result<String, AllocError>
    ensures { IfOk result (λ s. parse_document (string_bytes s) ≡ Some (templates.template true false)) }
{
    let text = joined(alloc, HEAD, FIRST, SECOND, "")?;
    Ok(text)
}

fn with_all(alloc: Global) -> Result<String, AllocError>
    ensures { IfOk result (λ s. parse_document (string_bytes s) ≡ Some (templates.template true true)) }
{
    let text = joined(alloc, HEAD, FIRST, SECOND, TIMER)?;
    Ok(text)
}

// The text of a description that lacks its identifier.
fn template(alloc: Global, two: bool, countdown: bool) -> Result<String, AllocError>
    ensures { IfOk result (λ s. parse_document (string_bytes s) ≡ Some (templates.template two countdown)) }
{
    match (two, countdown) {
        (false, false) => with_first(alloc),
        (false, true) => with_timer(alloc),
        (true, false) => with_second(alloc),
        (true, true) => with_all(alloc),
    }
}

// The table that names a unit's module.
fn naming(alloc: Global, identifier: &str) -> Result<Table, AllocError>
    ensures { IfOk result (λ t. table_view t ≡ co_simulation identifier.now) }
{
    let mut table = Table::new(alloc);
    let name = Value::from(String::from_str(alloc, identifier)?);
    table.insert(String::from_str(alloc, "modelIdentifier")?, name)?;
    table.insert(String::from_str(alloc, "hasEventMode")?, Value::from(true))?;
    Ok(table)
}

// The document of a text.
fn read(alloc: Global, text: &str) -> Result<Table, AllocError>
    ensures { IfOk result (λ t. parse_document text.now ≡ Some (table_view t)) }
{
    match toml::table_from_str(alloc, text) {
        Ok(table) => Ok(table),
        Err(_) => Err(AllocError),
    }
}

// A document with the table that names a unit's module.
fn named(alloc: Global, document: Table, unit: Table) -> Result<Table, AllocError>
    ensures { IfOk result (λ t. table_view t
        ≡ insert_member (codes "CoSimulation") (table (table_view unit)) (table_view document)) }
{
    let mut document = document;
    document.insert(String::from_str(alloc, "CoSimulation")?, Value::from(unit))?;
    Ok(document)
}

// The text of a document.
fn printed(alloc: Global, document: &Table) -> Result<Vec<u8>, AllocError>
    ensures utf8 { IfOk result (λ text. IsUtf8 text.items) }
    ensures reads_back { IfOk result (λ text. members_depth (table_view document.now) ≤ 80
        → parse_document text.items ≡ Some (table_view document.now)) }
{
    match toml::table_to_string(alloc, document) {
        Ok(text) => Ok(text.into_bytes()),
        Err(_) => Err(AllocError),
    }
}

/// The description of a guest with this identifier, with the terminal `CAN0` or with `CAN0` and `CAN1`, and with or
/// without the countdown clock 100.
pub fn description_of(
    alloc: Global,
    identifier: &str,
    terminals: u32,
    countdown: bool,
) -> Result<Vec<u8>, AllocError>
    requires identifier { is_identifier identifier.now ≡ true }
    requires terminals { (1 ≤ terminals) × (terminals ≤ 2) }
    ensures { IfOk result (λ text. spec.description_of text.items
        ≡ described text.items (guest_description identifier.now (terminals == 2) countdown)) }
{
    let text = template(alloc, terminals == 2, countdown)?;
    let document = read(alloc, text.as_str())?;
    let unit = naming(alloc, identifier)?;
    let document = named(alloc, document, unit)?;
    let bytes = printed(alloc, &document)?;
    Ok(bytes)
}
