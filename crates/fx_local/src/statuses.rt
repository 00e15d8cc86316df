//! How the program ends.
ghost use Rattle.std.specs.Prelude.{◌≡◌};
ghost use Rattle.fx_local.specs.Statuses.{code_of};

/// How a run ends.
#[derive(Clone, Copy, PartialEq, Eq)]
pub enum Status {
    /// The answer, or the plan, stands on standard output.
    Done,
    /// The words are no command.
    Usage,
    /// The query's text is not accepted.
    QueryRefused,
    /// The registry's text is not accepted.
    RegistryRefused,
    /// An exchange with an endpoint failed.
    EndpointFault,
    /// The reply of an endpoint is not read.
    BadReply,
    /// A SERVICE without SILENT names an IRI that is no endpoint.
    UnknownService,
    /// The reading of a file failed.
    ReadFault,
    /// A write to standard output failed, or a write behind it to standard error.
    WriteFault,
    /// The text of a request is too long.
    RequestTooLong,
    /// The graph's text is not accepted.
    GraphRefused,
    /// The door can't be opened, gives no connection, or can't end one.
    DoorFault,
    /// Memory ran out.
    NoMemory,
    /// A file has more bytes than its limit.
    FileTooLong,
}

impl Status {
    /// The exit status.
    pub fn code(&self) -> u8
        ensures { result ≡ code_of self.now }
    {
        match self {
            Status::Done => 0,
            Status::Usage => 2,
            Status::QueryRefused => 3,
            Status::RegistryRefused => 4,
            Status::EndpointFault => 5,
            Status::BadReply => 6,
            Status::UnknownService => 7,
            Status::ReadFault => 8,
            Status::WriteFault => 9,
            Status::RequestTooLong => 10,
            Status::GraphRefused => 11,
            Status::DoorFault => 12,
            Status::NoMemory => 13,
            Status::FileTooLong => 14,
        }
    }
}
