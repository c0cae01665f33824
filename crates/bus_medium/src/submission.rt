//! What an item that a node emits asks of its bus.
ghost use Rattle.std.specs.Prelude.{◌≡◌, true, IfOk};
ghost use Rattle.operation_specs.specs.Operation.{is_valid, IsOperation};
ghost use Rattle.operation_specs.specs.Reading.{IsWhole};
ghost use Rattle.log_specs.specs.Line.{On};
ghost use Rattle.bus_specs.specs.Bus.{Bus as medium};
ghost use Rattle.bus_specs.specs.Submit.{told_of, submission_of, submission_of_operation, submission_of_parameter, unfit_operation, first_64, is_own};
ghost use Rattle.log_lines.specs.Lines as lines;
ghost use Rattle.log_lines.specs.Lines.{line_of};
ghost use Rattle.bus_ops.specs.Views.{item_of, operation_of, parameter_of, declared_of};
ghost use Rattle.bus_medium.specs.Submissions.{asked_of, noted_of};

use crate::Medium;
use bus_ops::{Declared, Item, Op, Parameter, write_op};
use can_frame::{Bytes, Frame};
use log_lines::{Level, Line};
use std::alloc::{AllocError, Global};

/// How many bytes are told of an operation that is bad.
const MOST_TOLD: usize = 64;

/// What an item asks of its bus.
#[derive(Drop)]
pub(crate) enum Submission {
    /// A frame is to be sent.
    Transmit(Frame),
    /// Frames that lose arbitration stay.
    Keep,
    /// Frames that lose arbitration are removed.
    Discard,
    /// The bus is woken up.
    Wakeup,
    /// The node goes to sleep.
    Sleep,
    /// What changes nothing on the bus.
    Noted(Noted),
    /// What the bus doesn't take: its first 64 bytes.
    Unfit(Bytes),
}

/// What is only told.
#[derive(Drop)]
pub(crate) enum Noted {
    /// The bus's own nominal bit rate, in bits a second.
    Rate(u32),
    /// A data bit rate, in bits a second.
    FdRate(u32),
    /// The node declares its state.
    Declare(Level),
    /// The node couldn't read these bytes, at most 64.
    FormatError(Bytes),
}

impl Noted {
    /// Its line.
    pub(crate) fn line(self, moment: u64, bus: u32, node: u32) -> Line
        ensures { (b : medium) → line_of result ≡ On moment bus node (told_of b node (noted_of self)) }
    {
        match self {
            Noted::Rate(value) => Line::Rate {
                moment,
                bus,
                node,
                value,
            },
            Noted::FdRate(value) => Line::FdRate {
                moment,
                bus,
                node,
                value,
            },
            Noted::Declare(level) => Line::Status {
                moment,
                bus,
                node,
                level,
            },
            Noted::FormatError(bytes) => Line::FormatError {
                moment,
                bus,
                node,
                bytes,
            },
        }
    }
}

/// The first 64 bytes.
fn cut(bytes: Bytes) -> Bytes
    ensures { result ≡ first_64 bytes }
{
    let mut items = bytes.into_vec();
    items.truncate(MOST_TOLD);
    Bytes::of(items)
}

/// An operation that the bus doesn't take, in its written form.
fn unfit(alloc: Global, op: &Op) -> Result<Submission, AllocError>
    requires { is_valid (operation_of op.now) ≡ true }
    ensures { IfOk result (λ s. asked_of s ≡ unfit_operation (operation_of op.now)) }
{
    let mut bytes = Vec::new(alloc);
    write_op(alloc, &mut bytes, op)?;
    Ok(Submission::Unfit(cut(Bytes::of(bytes))))
}

fn level(declared: Declared) -> Level
    ensures { lines.declared_of result ≡ declared_of declared }
{
    match declared {
        Declared::Active => Level::Active,
        Declared::Passive => Level::Passive,
        Declared::Off => Level::Off,
    }
}

impl Medium {
    /// What an item asks. An operation that this bus doesn't take is unfit.
    #[tactic(auto, unfolding(bus_specs::specs::Submit::submission_of))]
    pub(crate) fn submission(&self, alloc: Global, item: Item) -> Result<Submission, AllocError>
        requires { IsWhole (item_of item) }
        ensures { IfOk result (λ s. asked_of s ≡ submission_of self.now.setup (item_of item)) }
    {
        match item {
            Item::Op(op) => self.submission_of_operation(alloc, op),
            Item::Bad(bytes) => Ok(Submission::Unfit(cut(bytes))),
        }
    }

    fn submission_of_operation(&self, alloc: Global, op: Op) -> Result<Submission, AllocError>
        requires { IsOperation (operation_of op) }
        ensures { IfOk result (λ s. asked_of s ≡ submission_of_operation self.now.setup (operation_of op)) }
    {
        match op {
            Op::FormatError(bytes) => Ok(Submission::Noted(Noted::FormatError(cut(bytes)))),
            Op::Transmit(frame) => Ok(Submission::Transmit(frame)),
            Op::FdTransmit(frame) if self.fd_rate.is_some() => Ok(Submission::Transmit(frame)),
            Op::Configuration(parameter) => self.submission_of_parameter(alloc, parameter),
            Op::Status(declared) => Ok(Submission::Noted(Noted::Declare(level(declared)))),
            Op::Wakeup => Ok(Submission::Wakeup),
            Op::Sleep => Ok(Submission::Sleep),
            other => unfit(alloc, &other),
        }
    }

    /// Whether it is the bus's own data bit rate; on a bus with none, each is.
    fn is_own(&self, rate: u32) -> bool
        ensures { result ≡ is_own self.now.setup.fd_rate rate }
    {
        match self.fd_rate {
            Some(own) => own == rate,
            None => true,
        }
    }

    fn submission_of_parameter(
        &self,
        alloc: Global,
        parameter: Parameter,
    ) -> Result<Submission, AllocError>
        ensures { IfOk result (λ s. asked_of s ≡ submission_of_parameter self.now.setup (parameter_of parameter)) }
    {
        match parameter {
            Parameter::Rate(value) if self.rate == value => Ok(Submission::Noted(Noted::Rate(
                value,
            ))),
            Parameter::FdRate(value) if self.is_own(value) => Ok(Submission::Noted(Noted::FdRate(
                value,
            ))),
            Parameter::Keep => Ok(Submission::Keep),
            Parameter::Discard => Ok(Submission::Discard),
            other => unfit(alloc, &Op::Configuration(other)),
        }
    }
}
