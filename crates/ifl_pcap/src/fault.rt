ghost use Rattle.std.specs.Prelude.{◌≡◌};
ghost use Rattle.ifl_pcap.specs.declared.fault.CaptureFault.TheVariants.{Memory};
ghost use Rattle.ifl_pcap.specs.Names.{why_name, why_number};

use ifl_base::NoMemory;
use std::alloc::{AllocError, AllocFailed};
use thiserror::Error;

/// What is wrong at the first place at which bytes are no capture's file. It prints as its name.
#[derive(Clone, Copy, Debug, PartialEq, Eq, Error)]
pub enum CaptureWhy {
    /// There are fewer than the 24 bytes of a header. It stands at 0.
    #[error("Short")]
    Short,
    /// The file begins with no magic of the format, in neither byte order. It stands at 0.
    #[error("Magic")]
    Magic,
    /// The version is not 2.4. It stands at 4.
    #[error("Version")]
    Version,
    /// The low 16 bits of the link type are not 1, Ethernet. It stands at 20.
    #[error("Link")]
    Link,
    /// A record's 16 bytes, or the bytes that they announce, are not all there. It stands where the record begins.
    #[error("RecordShort")]
    RecordShort,
    /// A record announces more than 262,144 bytes. It stands where the record begins.
    #[error("TooLong")]
    TooLong,
}

impl CaptureWhy {
    /// The number of what is wrong, 1 to 6.
    pub fn number(self) -> u8
        ensures { result ≡ why_number self }
    {
        match self {
            CaptureWhy::Short => 1,
            CaptureWhy::Magic => 2,
            CaptureWhy::Version => 3,
            CaptureWhy::Link => 4,
            CaptureWhy::RecordShort => 5,
            CaptureWhy::TooLong => 6,
        }
    }

    /// The name of what is wrong, as fault lines tell it.
    pub fn name(self) -> &'static str
        ensures { result.now ≡ why_name self }
    {
        match self {
            CaptureWhy::Short => "Short",
            CaptureWhy::Magic => "Magic",
            CaptureWhy::Version => "Version",
            CaptureWhy::Link => "Link",
            CaptureWhy::RecordShort => "RecordShort",
            CaptureWhy::TooLong => "TooLong",
        }
    }
}

/// Why a capture could not be read.
#[derive(Clone, Copy, Debug, PartialEq, Eq, Error)]
pub enum CaptureFault {
    /// The bytes are no capture's file, and this is their first fault: its place in bytes from 0, and what is wrong there.
    #[error("not a capture file: {why} at {at}")]
    Bad { at: u64, why: CaptureWhy },
    /// There was no memory for the table of the frames, or the file has 4 GiB or more, which no table here holds.
    #[error("out of memory")]
    Memory,
}

impl From<NoMemory> for CaptureFault {
    ghost from_gives = { λ _ e. e ≡ Memory };

    fn from(_: NoMemory) -> CaptureFault {
        CaptureFault::Memory
    }
}

impl From<AllocError> for CaptureFault {
    ghost from_gives = { λ _ e. e ≡ Memory };

    fn from(_: AllocError) -> CaptureFault {
        CaptureFault::Memory
    }
}

impl<T: Drop> From<AllocFailed<T>> for CaptureFault {
    ghost from_gives = { λ _ e. e ≡ Memory };

    fn from(_: AllocFailed<T>) -> CaptureFault {
        CaptureFault::Memory
    }
}
