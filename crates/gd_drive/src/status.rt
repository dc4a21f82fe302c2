ghost use Rattle.std.specs.Prelude.{◌≡◌};

use gd_server::ServeLoopEnd;

/// How the program ends.
#[derive(Clone, Copy, Debug, PartialEq, Eq)]
pub enum Status {
    Done,
    Usage,
    AcceptFault,
    PortFault,
    Memory,
}

impl Status {
    /// The exit code.
    pub fn number(self) -> u8
        ensures done { self ≡ Status.Done → result ≡ 0 }
        ensures usage { self ≡ Status.Usage → result ≡ 2 }
        ensures accept { self ≡ Status.AcceptFault → result ≡ 5 }
        ensures port { self ≡ Status.PortFault → result ≡ 6 }
        ensures memory { self ≡ Status.Memory → result ≡ 10 }
    {
        match self {
            Status::Done => 0,
            Status::Usage => 2,
            Status::AcceptFault => 5,
            Status::PortFault => 6,
            Status::Memory => 10,
        }
    }

    /// How the program ends behind its loop.
    pub fn of(end: ServeLoopEnd) -> Status
        ensures enough { end ≡ ServeLoopEnd.Enough → result ≡ Status.Done }
        ensures fault { end ≡ ServeLoopEnd.AcceptFault → result ≡ Status.AcceptFault }
        ensures memory { end ≡ ServeLoopEnd.Memory → result ≡ Status.Memory }
    {
        match end {
            ServeLoopEnd::Enough => Status::Done,
            ServeLoopEnd::AcceptFault => Status::AcceptFault,
            ServeLoopEnd::Memory => Status::Memory,
        }
    }
}
