//! Which file was refused, and why.

/// The files that a command reads.
#[derive(Clone, Copy, Debug, PartialEq, Eq)]
pub enum FileId {
    /// The file that the command names; of a network, the network file.
    Main,
    /// The description of the unit of this node.
    Description(u32),
    /// The module of the unit of this node.
    Module(u32),
}

/// The rule that a file breaks.
#[derive(Clone, Copy, Debug, PartialEq, Eq)]
pub enum Why {
    /// A line that breaks the form of its file; the place is its number, from 1.
    Line,
    /// A file over its greatest length; the place is that limit in bytes. Of a module also: the content of a section or
    /// body ends before its stated size; the place is the section's id byte, or the body's size.
    Size,
    /// A network file or a description that is no TOML document; the place is 0.
    Toml,
    /// Of a module: an item doesn't fit before the end of the file, or of its section or body; the place is that end.
    Short,
    /// Its first four bytes are no module's; the place is 0.
    Magic,
    /// The next four bytes aren't those of version 1; the place is 4.
    Version,
    /// An unknown section id.
    Section,
    /// A section id that doesn't rise.
    Order,
    /// A LEB128 number with a fault other than that its bytes end.
    Number,
    /// An import section with imports; the place is its id byte.
    Import,
    /// A float type, opcode or constant.
    Float,
    /// Another byte than those allowed for a type, a limit, a kind, mutability or a constant expression.
    Form,
    /// A name that isn't UTF-8; the place is that of its length.
    Utf8,
    /// An unknown opcode, or another byte than 00 where 00 stands.
    Opcode,
    /// An else outside an if, or a second one.
    Nesting,
    /// The numbers of functions and bodies differ; the place is the code section's id byte, else the file's length.
    Count,
    /// A least size over its limit; nesting over its limit, at the opcode; or locals over theirs, at the body's size.
    Limit,
    /// Of a module that isn't valid, here and below: a function type with more than one result. The place is the
    /// position of the item in its list.
    TypeResult,
    /// A function whose type isn't there.
    FuncType,
    /// A least size over the greatest, a memory's greatest size over 65,536 pages, or a second table or memory.
    Limits,
    /// A global whose constant has another type.
    Global,
    /// An export of what isn't there, or under a name that was used. Of a valid module: no function is exported under
    /// the name that is called; the place is 0.
    Export,
    /// A function that runs first and isn't there, or has parameters or results.
    Start,
    /// An element segment without a table, at an offset that is no i32, or of a function that isn't there.
    Element,
    /// A data segment without a memory, or at an offset that is no i32.
    Data,
    /// In a body, here and below: an instruction names what isn't there, or sets a constant global. The place is the
    /// function, the second number the instruction.
    Index,
    /// The alignment of a load or store is over its width.
    Align,
    /// An operand is missing or has another type, or a list doesn't end with exactly its result.
    Operand,
    /// A frame has no room for its locals and operands.
    Slots,
    /// Of a valid module, here and below: a segment doesn't fit. The place is its position in its list, the second
    /// number is 0 for an element segment and 1 for a data segment.
    Segment,
    /// The arguments of a call. The place is their number, where the function takes more or fewer, else the position of
    /// the first that is no number of its type.
    Args,
    /// An export that a unit has to have isn't there; the place is its row in the table of them.
    Missing,
    /// An export that a unit has to have is of another kind or type; the place is its row.
    Signature,
    /// Of a network file, here and below: how many ticks a second has. The place is 0, or the position of the table in
    /// its array.
    Resolution,
    /// The last moment at which something happens.
    Stop,
    /// How many events happen at most.
    Events,
    /// How many instructions a call of a unit takes at most.
    Fuel,
    /// The array of buses.
    Bus,
    /// A bus's name.
    BusName,
    /// A bus's nominal bit rate.
    BusRate,
    /// A bus's data bit rate.
    BusFdRate,
    /// The array of nodes.
    Node,
    /// A node's name.
    NodeName,
    /// The folder of a node's unit.
    NodeFmu,
    /// The bus of each terminal of a node.
    NodeBus,
    /// The array of errors.
    Error,
    /// The bus of an error.
    ErrorBus,
    /// The first attempt that an error covers.
    ErrorAttempt,
    /// How many attempts an error covers.
    ErrorCount,
    /// The kind of an error.
    ErrorKind,
    /// Who detects an error.
    ErrorBy,
    /// The bit at which an error is detected.
    ErrorBit,
    /// Of a description, here and below: the version of FMI. The place is 0, or the position of the table in its array.
    FmiVersion,
    /// The model's name.
    ModelName,
    /// The token by which a unit is known to be of this description.
    InstantiationToken,
    /// The table of what holds for co-simulation.
    CoSimulation,
    /// The name of the unit's module.
    ModelIdentifier,
    /// Whether the unit has Event Mode.
    HasEventMode,
    /// The array of clocks.
    Clock,
    /// A clock's name.
    ClockName,
    /// A clock's value reference.
    ClockValueReference,
    /// A clock's causality.
    ClockCausality,
    /// By what a clock's interval is given.
    ClockIntervalVariability,
    /// The array of binary variables.
    Binary,
    /// A binary's name.
    BinaryName,
    /// A binary's value reference.
    BinaryValueReference,
    /// A binary's causality.
    BinaryCausality,
    /// A binary's clock.
    BinaryClocks,
    /// A binary's greatest length.
    BinaryMaxSize,
    /// The array of terminals.
    Terminal,
    /// A terminal's name.
    TerminalName,
    /// The binary input of a terminal.
    TerminalRxData,
    /// The input's clock.
    TerminalRxClock,
    /// The binary output of a terminal.
    TerminalTxData,
    /// The output's clock.
    TerminalTxClock,
}

/// A file that breaks its rules, by the first rule that it breaks.
#[derive(Clone, Copy, Debug, PartialEq, Eq)]
pub struct Refusal {
    /// The file.
    pub file: FileId,
    /// The rule.
    pub why: Why,
    /// Where, as the rule counts: mostly a line's number or a place in bytes.
    pub place: u64,
    /// A second number that some rules give, else 0.
    pub at: u64,
}
