// The options of a channel.

ghost use Rattle.std.specs.Prelude.{◌≡◌, map};
ghost use Rattle.conf_ast.specs.Configurations.{channel_setting_of};
ghost use Rattle.conf_options.specs.Options.{channel_options, channel_options_of, with_channel_option};

use conf_ast::Name;
use conf_ast::configurations::{ChannelOption, Limit, Policy};
use conf_ast::filters::Num;

/// The options of a channel that count, each as it was written last.
#[derive(Clone, Copy)]
pub struct ChannelOptions<'a> {
    pub table: Option<Name>,
    pub import: Option<&'a Policy>,
    pub export: Option<&'a Policy>,
    pub preference: Option<Num>,
    pub limit: Option<Limit>,
}

impl<'a> ChannelOptions<'a> {
    fn set(&mut self, option: &'a ChannelOption)
        ensures { channel_options_of self.new
            ≡ with_channel_option (channel_options_of self.old) (channel_setting_of option.now) }
    {
        match option {
            ChannelOption::Table(name) => self.table = Some(*name),
            ChannelOption::Import(policy) => self.import = Some(policy),
            ChannelOption::Export(policy) => self.export = Some(policy),
            ChannelOption::Preference { value, .. } => self.preference = Some(*value),
            ChannelOption::ImportLimit(limit) => self.limit = Some(*limit),
            ChannelOption::NextHop(_) => (),
        }
    }

    pub fn of(options: &'a [ChannelOption]) -> ChannelOptions<'a>
        ensures { channel_options_of result ≡ channel_options (map channel_setting_of options.now) }
    {
        let mut found = ChannelOptions {
            table: None,
            import: None,
            export: None,
            preference: None,
            limit: None,
        };
        for option in options {
            found.set(option);
        }
        found
    }
}
