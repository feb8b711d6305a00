//! The exit status of a command that counts races.

ghost use Rattle.hg_tasks.specs.Exits.{IsExit};

use hg_options::task::ErrorExitcode;

/// The exit status of a command that came to `status`, and counted races or none: `error_exitcode`, where it is given, in place of 0
/// where there were races; else `status`.
pub fn exit_status(status: u8, has_races: bool, error_exitcode: Option<ErrorExitcode>) -> u8
    ensures { IsExit error_exitcode status has_races result }
{
    match error_exitcode {
        Some(given) => {
            if status == 0 && has_races {
                given.status
            } else {
                status
            }
        }
        None => status,
    }
}
