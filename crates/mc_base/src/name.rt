/// An endpoint as any domain names it: its domain, node and port.
#[derive(Clone, Copy, Debug, PartialEq, Eq)]
pub struct EndName {
    /// The domain's number, 0 to 7. A name with another number names no endpoint.
    pub domain: u8,
    /// The node's number in its domain, from 0. A domain has at most 16 nodes.
    pub node: u8,
    /// The port, 0 to 65,535.
    pub port: u16,
}

/// An endpoint as its own domain names it: its node and port.
#[derive(Clone, Copy, Debug, PartialEq, Eq)]
pub struct Local {
    /// The node's number, from 0. It has to be less than the domain's number of nodes, which is at most 16.
    pub node: u8,
    /// The port, 0 to 65,535.
    pub port: u16,
}
