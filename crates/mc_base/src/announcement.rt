use arrayvec::ArrayVec;

/// A name announcement of the RPMsg name service: a name of 1 to 31 bytes from 0x20 to 0x7e, an address, and
/// whether the endpoint is there from now on or gone.
#[derive(Debug, Drop)]
pub struct Ns {
    pub name: ArrayVec<u8, 31>,
    pub addr: u32,
    pub create: bool,
}
