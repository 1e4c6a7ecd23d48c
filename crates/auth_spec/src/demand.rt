//! What meets a demand.

/// What meets a demand for an authorisation.
#[derive(Clone, Copy, Debug, PartialEq, Eq)]
pub enum Demand {
    /// A node of this entry. If it is the first one of the entry, then it is the root.
    Matched { entry: usize, first: bool },
    /// The address is the direct caller.
    ByInvoker,
    /// Nothing.
    Denied,
    /// Nothing, but a recorder noted that it has to be authorised. Only a recorder answers so.
    Noted,
    /// A recorder ran out of memory. Only a recorder answers so.
    NoMemory,
}
