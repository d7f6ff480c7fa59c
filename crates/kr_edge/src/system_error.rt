//! Why a call of the system failed.
ghost use Rattle.std.specs.Prelude.{◌≡◌};
ghost use Rattle.std.specs.IoError.{error_kind};

use kr_base::Failed;
use std::io::{self, ErrorKind};

/// Of which kind the error is. It is let go here once: its destructor is large, and would stand at
/// each end of each caller.
pub(crate) fn io_error_kind(error: io::Error) -> ErrorKind
    ensures { result ≡ error_kind error }
{
    let kind = error.kind();
    drop(error);
    kind
}

/// A fault whose kind is no matter.
pub(crate) fn failed(error: io::Error) -> Failed {
    drop(error);
    Failed
}
