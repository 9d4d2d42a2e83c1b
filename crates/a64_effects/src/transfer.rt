//! What a load or store does with the bytes of an element.

/// What becomes of an element's bytes.
#[derive(Clone, Copy, Debug, PartialEq, Eq)]
pub enum Transfer {
    /// The low bytes of the register are stored.
    Store,
    /// They are loaded, with zeros above.
    Load,
    /// They are loaded, with copies of their top bit up to 64 bits.
    LoadSigned,
    /// They are loaded, with copies of their top bit up to 32 bits, and zeros above.
    LoadSigned32,
    /// None is moved.
    Prefetch,
    /// The low bytes of the vector register are stored.
    StoreVector,
    /// They are loaded into the low bytes of the vector register, with zeros above.
    LoadVector,
}
