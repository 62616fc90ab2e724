// The options of a pipe.

ghost use Rattle.std.specs.Prelude.{◌≡◌, map};
ghost use Rattle.conf_ast.specs.Configurations.{pipe_setting_of};
ghost use Rattle.conf_options.specs.Options.{pipe_options, pipe_options_of, with_pipe_option};

use conf_ast::Name;
use conf_ast::configurations::{PipeOption, Policy};

/// The options of a pipe that count, each as it was written last.
#[derive(Clone, Copy)]
pub struct PipeOptions<'a> {
    pub table: Option<Name>,
    pub peer: Option<Name>,
    pub import: Option<&'a Policy>,
    pub export: Option<&'a Policy>,
}

impl<'a> PipeOptions<'a> {
    fn set(&mut self, option: &'a PipeOption)
        ensures { pipe_options_of self.new
            ≡ with_pipe_option (pipe_options_of self.old) (pipe_setting_of option.now) }
    {
        match option {
            PipeOption::Table(name) => self.table = Some(*name),
            PipeOption::PeerTable(name) => self.peer = Some(*name),
            PipeOption::Import(policy) => self.import = Some(policy),
            PipeOption::Export(policy) => self.export = Some(policy),
        }
    }

    pub fn of(options: &'a [PipeOption]) -> PipeOptions<'a>
        ensures { pipe_options_of result ≡ pipe_options (map pipe_setting_of options.now) }
    {
        let mut found = PipeOptions {
            table: None,
            peer: None,
            import: None,
            export: None,
        };
        for option in options {
            found.set(option);
        }
        found
    }
}
