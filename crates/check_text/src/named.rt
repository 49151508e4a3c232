//! A file.

/// A file by its name and its bytes.
#[derive(Clone, Copy)]
pub struct Named<'a> {
    pub name: &'a [u8],
    pub text: &'a [u8],
}
