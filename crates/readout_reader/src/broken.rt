/// A rule is broken where so many bytes are left.
#[derive(Clone, Copy, Debug, PartialEq, Eq)]
pub(crate) struct Broken {
    pub left: usize,
}
