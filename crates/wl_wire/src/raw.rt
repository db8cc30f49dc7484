//! A message whose body is not read yet.

/// A whole message: the object that it is sent to, its opcode and its body. Which arguments the body has only the
/// object's interface tells.
#[derive(Clone, Copy, Debug)]
pub struct Raw<'a> {
    /// The object's id.
    pub id: u32,
    /// The opcode, which counts from 0 in each interface and direction.
    pub opcode: u16,
    /// The arguments' bytes: 0 to 4,088, a multiple of 4.
    pub body: &'a [u8],
}
