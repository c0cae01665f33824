//! The bodies of the functions that all guests have.
ghost use Rattle.std.specs.Prelude.{◌≡◌, IfOk};
ghost use Rattle.wasm_types.specs.Nested.{flat_body};
ghost use Rattle.guest_kit.specs.Program.{area_code, fine_code, tick_code, take_code, ask_code, give_code, update_code, interval_code, append_code, copy_code};

use std::alloc::{AllocError, Global};
use wasm_types::Instr;

// One instruction: of WebAssembly's, `local.get` and so on under short names, and the position where a list ends.
macro_rules! instr {
    (get $index:literal) => { Instr::Local { op: 0x20, index: $index } };
    (set $index:literal) => { Instr::Local { op: 0x21, index: $index } };
    (tee $index:literal) => { Instr::Local { op: 0x22, index: $index } };
    (number $value:literal) => { Instr::I32Const($value) };
    (long $value:literal) => { Instr::I64Const($value) };
    (load $offset:literal) => { Instr::Access { op: 0x28, align: 2, offset: $offset } };
    (load_long $offset:literal) => { Instr::Access { op: 0x29, align: 3, offset: $offset } };
    (store $offset:literal) => { Instr::Access { op: 0x36, align: 2, offset: $offset } };
    (store_long $offset:literal) => { Instr::Access { op: 0x37, align: 3, offset: $offset } };
    (equal) => { Instr::Numeric(0x46) };
    (unequal) => { Instr::Numeric(0x47) };
    (not_above) => { Instr::Numeric(0x4C) };
    (not_below) => { Instr::Numeric(0x4F) };
    (add) => { Instr::Numeric(0x6A) };
    (subtract) => { Instr::Numeric(0x6B) };
    (both) => { Instr::Numeric(0x71) };
    (either) => { Instr::Numeric(0x72) };
    (call $func:literal) => { Instr::Call($func) };
    (branch $label:literal) => { Instr::Br($label) };
    (branch_if $label:literal) => { Instr::BrIf($label) };
    (block $end:literal) => { Instr::Block { result: None, end: $end } };
    (again $end:literal) => { Instr::Loop { result: None, end: $end } };
    (where $end:literal) => { Instr::If { result: None, else_at: None, end: $end } };
    (end) => { Instr::End };
}

// A body.
macro_rules! code {
    ($alloc:expr; $([$($word:tt)+])+) => { vec![in $alloc; $(instr!($($word)+)),+] };
}

// Where numbers and bytes are exchanged.
pub fn area(alloc: Global) -> Result<Vec<Instr>, AllocError>
    ensures { IfOk result (λ body. body.items ≡ flat_body area_code) }
{
    let body = code!(alloc;
        [number 16384] [end]
    )?;
    Ok(body)
}

// Status OK.
pub fn fine(alloc: Global) -> Result<Vec<Instr>, AllocError>
    ensures { IfOk result (λ body. body.items ≡ flat_body fine_code) }
{
    let body = code!(alloc;
        [number 0] [end]
    )?;
    Ok(body)
}

// A tick of the countdown clock: the answer goes out, and the interval is to be told again.
pub fn tick(alloc: Global) -> Result<Vec<Instr>, AllocError>
    ensures { IfOk result (λ body. body.items ≡ flat_body tick_code) }
{
    let body = code!(alloc;
        [get 0] [number 100] [equal] [where 11] [number 40] [number 0] [load 36] [call 10]
        [number 0] [number 2] [store 16] [end] [number 0] [end]
    )?;
    Ok(body)
}

// Each operation that came in: a transmit goes out again where that is wanted, and for a wakeup the answer.
pub fn take(alloc: Global) -> Result<Vec<Instr>, AllocError>
    ensures { IfOk result (λ body. body.items ≡ flat_body take_code) }
{
    let body = code!(alloc;
        [get 0] [number 1] [equal] [where 54] [number 16448] [tee 2] [get 1] [add] [set 1]
        [block 53] [again 52] [get 2] [get 1] [not_below] [branch_if 1] [get 2] [load 0] [number 16]
        [equal] [get 2] [load 0] [number 17] [equal] [either] [number 0] [load 28] [both] [where 32]
        [get 2] [get 2] [load 4] [call 10] [end] [get 2] [load 0] [number 66] [equal] [number 0]
        [load 32] [both] [where 45] [number 40] [number 0] [load 36] [call 10] [end] [get 2] [get 2]
        [load 4] [add] [set 2] [branch 0] [end] [end] [end] [number 0] [end]
    )?;
    Ok(body)
}

// Whether a clock ticks: that of what goes out, where anything does.
pub fn ask(alloc: Global) -> Result<Vec<Instr>, AllocError>
    ensures { IfOk result (λ body. body.items ≡ flat_body ask_code) }
{
    let body = code!(alloc;
        [number 16384] [get 0] [number 0] [load 24] [equal] [number 0] [load 20] [number 0]
        [unequal] [both] [store 0] [number 0] [end]
    )?;
    Ok(body)
}

// What goes out: its length and its bytes.
pub fn give(alloc: Global) -> Result<Vec<Instr>, AllocError>
    ensures { IfOk result (λ body. body.items ≡ flat_body give_code) }
{
    let body = code!(alloc;
        [number 16384] [number 0] [load 20] [store 0] [number 16448] [number 32768] [number 0]
        [load 20] [call 11] [number 0] [number 0] [store 20] [number 0] [end]
    )?;
    Ok(body)
}

// Neither another update nor the end.
pub fn update(alloc: Global) -> Result<Vec<Instr>, AllocError>
    ensures { IfOk result (λ body. body.items ≡ flat_body update_code) }
{
    let body = code!(alloc;
        [number 16384] [long 0] [store_long 0] [number 0] [end]
    )?;
    Ok(body)
}

// Counter, resolution and qualifier, which is 1 (unchanged) from then on.
pub fn interval(alloc: Global) -> Result<Vec<Instr>, AllocError>
    ensures { IfOk result (λ body. body.items ≡ flat_body interval_code) }
{
    let body = code!(alloc;
        [number 16384] [number 0] [load_long 0] [store_long 0] [number 16384] [number 0]
        [load_long 8] [store_long 8] [number 16384] [number 0] [load 16] [store 16] [number 0]
        [number 1] [store 16] [number 0] [end]
    )?;
    Ok(body)
}

// Bytes from an address on go out too.
pub fn append(alloc: Global) -> Result<Vec<Instr>, AllocError>
    ensures { IfOk result (λ body. body.items ≡ flat_body append_code) }
{
    let body = code!(alloc;
        [number 32768] [number 0] [load 20] [add] [get 0] [get 1] [call 11] [number 0] [number 0]
        [load 20] [get 1] [add] [store 20] [end]
    )?;
    Ok(body)
}

// Bytes are copied to one address from another, eight at a time.
pub fn copy(alloc: Global) -> Result<Vec<Instr>, AllocError>
    ensures { IfOk result (λ body. body.items ≡ flat_body copy_code) }
{
    let body = code!(alloc;
        [block 24] [again 23] [get 2] [number 0] [not_above] [branch_if 1] [get 0] [get 1]
        [load_long 0] [store_long 0] [get 0] [number 8] [add] [set 0] [get 1] [number 8] [add]
        [set 1] [get 2] [number 8] [subtract] [set 2] [branch 0] [end] [end] [end]
    )?;
    Ok(body)
}
