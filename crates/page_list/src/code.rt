//! The page that instructions are fetched from.

/// No page has this number.
pub(crate) const NO_PAGE: u64 = u64::MAX;

/// A page that may be fetched from and has a frame: their numbers. It is kept at hand, so that a fetch needs no search.
#[derive(Clone, Copy, Drop)]
pub(crate) struct CodePage {
    pub(crate) number: u64,
    pub(crate) frame: u32,
}

/// No page.
pub(crate) const NO_CODE: CodePage = CodePage {
    number: NO_PAGE,
    frame: 0,
};
