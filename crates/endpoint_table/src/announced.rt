use mc_base::Local;

/// What is announced to a linked domain: that the endpoint is there from now on, or gone.
#[derive(Clone, Copy, Debug)]
pub struct Announced {
    pub local: Local,
    pub address: u32,
    pub create: bool,
}
