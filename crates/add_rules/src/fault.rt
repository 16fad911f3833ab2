//! What may be wrong with a typed destination, so that no constraint is made of it.

/// Why a destination is none.
#[derive(Clone, Copy, Debug, PartialEq, Eq)]
pub enum DestFault {
    /// The host that is left has a user.
    SourceUser,
    /// A host is empty.
    EmptyHost,
    /// A user is empty.
    EmptyUser,
    /// The files of known hosts have no key for a host.
    NoKeys,
}
