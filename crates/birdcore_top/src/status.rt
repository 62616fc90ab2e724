//! How the program ended.
ghost use Rattle.std.specs.Prelude.{◌≡◌};
ghost use Rattle.birdcore_top.specs.Answer.{number_of};

use conf_ast::ConfKind;
use conf_system::SystemFault;
use phases_out::Ending;
use script_lines::ScriptKind;
use sys_build::ReadFault;
use thiserror::Error;

/// How the program ended. Its text is the line that is printed on standard error where it isn't
/// `Ok`.
#[derive(Debug, PartialEq, Eq, Drop, Error)]
pub enum Status {
    /// The files were read and accepted, and the whole report, or the `ok` of a check, was written.
    #[error("ok")]
    Ok,
    /// The words are neither `check CONF`, perhaps with `SCRIPT` behind it, nor `play CONF SCRIPT`
    /// or `run CONF SCRIPT`, perhaps with `--journal N` behind that and with `-q` as the last word.
    #[error("usage: birdcore COMMAND [CONF [SCRIPT]] [--journal N] [--number N] [-q]")]
    Usage,
    /// The configuration is refused at this place. Lines, and the bytes of a line, are counted from
    /// 1.
    #[error("config {line}:{column} {kind}")]
    ConfigRefused {
        line: u32,
        column: u32,
        kind: ConfKind,
    },
    /// This line of the script is refused. Lines are counted from 1.
    #[error("script {line} {kind}")]
    ScriptRefused {
        line: u32,
        kind: ScriptKind,
    },
    /// A file couldn't be read.
    #[error("read fault")]
    ReadFault,
    /// The report, or the `ok` of a check, couldn't be written to its end.
    #[error("write fault")]
    WriteFault,
    #[error("out of memory")]
    OutOfMemory,
    /// The file of this name has over 2^24 bytes.
    #[error("too long {name}")]
    TooLong {
        name: String,
    },
}

impl Status {
    /// The program's exit status: 0 for `Ok` alone, and another for each other one.
    pub fn number(&self) -> u8
        ensures { result ≡ number_of self.now }
    {
        match self {
            Status::Ok => 0,
            Status::Usage => 1,
            Status::ConfigRefused { .. } => 2,
            Status::ScriptRefused { .. } => 3,
            Status::ReadFault => 4,
            Status::WriteFault => 5,
            Status::OutOfMemory => 6,
            Status::TooLong { .. } => 7,
        }
    }
}

impl From<Ending> for Status {
    ghost use Rattle.birdcore_top.specs.Answer.{end_status};

    ghost from_gives = { λ ending status. status ≡ end_status ending };

    fn from(ending: Ending) -> Self {
        match ending {
            Ending::Written => Status::Ok,
            Ending::SinkFailed => Status::WriteFault,
            Ending::OutOfMemory => Status::OutOfMemory,
        }
    }
}

impl From<ReadFault> for Status {
    ghost use Rattle.birdcore_top.specs.Answer.{line_status};

    ghost from_gives = { λ fault status. status ≡ line_status fault };

    fn from(fault: ReadFault) -> Self {
        match fault {
            ReadFault::Refused { line, kind } => Status::ScriptRefused { line, kind },
            ReadFault::Memory => Status::OutOfMemory,
        }
    }
}

impl From<SystemFault> for Status {
    ghost use Rattle.birdcore_top.specs.Answer.{status_of};

    ghost from_gives = { λ fault status. status ≡ status_of fault };

    fn from(fault: SystemFault) -> Self {
        match fault {
            SystemFault::Refused { line, column, kind } => Status::ConfigRefused {
                line,
                column,
                kind,
            },
            SystemFault::Memory => Status::OutOfMemory,
        }
    }
}
