//! Links and folders.

/// What a file has of a link, or of a folder but for what stands in it.
#[derive(Clone, Copy, Debug)]
pub struct Entry<'a> {
    /// The bytes of its attributes, between the name of its tag and the `>`.
    pub attributes: &'a [u8],
    /// Those of its title.
    pub title: &'a [u8],
    /// Its note, where it has one.
    pub note: Option<&'a [u8]>,
}
