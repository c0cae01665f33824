//! Why no function of a valid module is called.
use code_specs::Misfit;

/// The first condition of a call that fails; they are looked at in this order.
#[derive(Clone, Copy, PartialEq, Eq, Debug)]
pub enum CallFault {
    /// A segment doesn't fit.
    Segment(Misfit),
    /// No function is exported under the name.
    Export,
    /// So many arguments are given, and the function takes more or fewer; or else the position of the first one that is
    /// no number of its type.
    Args(u64),
}
