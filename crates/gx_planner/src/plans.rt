// The ways to look for the records of a `find`.

/// A way to look for the records of a `find`. A number is that of one of its conditions, counted
/// from 0.
#[derive(Clone, Copy, Debug, PartialEq, Eq)]
pub enum Plan {
    /// by the key that the condition gives
    Key(u16),
    /// by the members of the owner
    Link,
    /// by the index of the condition's field, at the value that it gives
    Index(u16),
    /// by a range of keys
    KeyRange(u16),
    /// by a range of the index of the condition's field
    IndexRange(u16),
    /// all records of the file
    Scan,
}
