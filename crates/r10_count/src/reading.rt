//! What a body says.

/// What the reading of a body finds, where `T` is what a body says.
#[derive(Clone, Copy, Debug, Drop, PartialEq, Eq)]
pub enum Reading<T> {
    /// The writer makes this body of these, and of nothing else.
    Strict(T),
    /// A body that another writer may have made and this one doesn't.
    Lenient,
    /// Not a body of this type.
    Neither,
}
