/// What the words ask for.
#[derive(Debug, Drop)]
pub enum Asked {
    Serve(Serving),
    /// The help or the version that they ask for.
    Told(String),
    /// What is wrong with them, where they ask for nothing that can be done.
    Refused(String),
}

/// How a drive is to be served.
#[derive(Clone, Copy, Debug, PartialEq, Eq)]
pub struct Serving {
    /// The port of loopback, from 1.
    pub port: u16,
    /// After how many connections the program ends, if it is to end by itself.
    pub connections: Option<u64>,
}
