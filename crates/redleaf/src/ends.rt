//! What is told of a call that neither did what it was asked for nor refused the bundle.
ghost use Rattle.std.specs.Prelude.{◌≡◌, ◌≢◌, ◌⊎◌, IfNone, IfSome};

use redleaf_app::Status;

/// The line that tells why a call ended with a status. None exactly where the answer on standard
/// output tells it: where all was done, and where the bundle is refused.
pub(crate) fn told(status: Status) -> Option<&'static str>
    ensures none { IfNone result ((status ≡ Status.Done) ⊎ (status ≡ Status.Refused)) }
    ensures some { IfSome result (λ _. (status ≢ Status.Done) × (status ≢ Status.Refused)) }
{
    match status {
        Status::Done | Status::Refused => None,
        Status::Usage => Some(
            "redleaf: the words are `check` or `run`, and the bundle comes on standard input, or `heads N`, N from 1 to 4096\n",
        ),
        Status::ReadFault => Some("redleaf: standard input can't be read\n"),
        Status::WriteFault => Some(
            "redleaf: standard output can't be written, so the answer is cut off\n",
        ),
        Status::Memory => Some("redleaf: there isn't enough memory\n"),
        Status::Long => Some(
            "redleaf: the history is full: no step begins at 262144 entries or more\n",
        ),
        Status::TooLong => Some("redleaf: the bundle is longer than 1048576 bytes\n"),
    }
}
