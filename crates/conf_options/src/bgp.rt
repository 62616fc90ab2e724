// The options of a BGP protocol.

ghost use Rattle.std.specs.Prelude.{◌≡◌, map};
ghost use Rattle.conf_ast.specs.Configurations.{bgp_setting_of};
ghost use Rattle.conf_options.specs.Options.{bgp_options, with_bgp_option};
ghost use Rattle.conf_options.specs.Defaults as defaults;

use bits_ip::Addr;
use conf_ast::configurations::{BgpOption, Switch};
use conf_ast::filters::Num;

/// The neighbour's address, and the number of its autonomous system.
#[derive(Clone, Copy, Debug)]
pub struct Neighbor {
    pub address: Addr,
    pub number: Num,
}

/// The options of a BGP protocol that count, each as it was written last. Its channels aren't among
/// them, and its transport has no effect.
#[derive(Clone, Copy, Debug)]
pub struct BgpOptions {
    /// The number of the own autonomous system.
    pub local: Option<Num>,
    pub neighbor: Option<Neighbor>,
    pub med_metric: Option<Switch>,
    pub interpret_communities: Option<Switch>,
    pub default_med: Option<Num>,
    pub default_local_pref: Option<Num>,
}

impl BgpOptions {
    fn set(&mut self, option: &BgpOption)
        ensures { self.new ≡ with_bgp_option self.old (bgp_setting_of option.now) }
    {
        match option {
            BgpOption::Channel(_) => (),
            BgpOption::Local { number, .. } => self.local = Some(*number),
            BgpOption::Neighbor { address, number } => {
                self.neighbor = Some(Neighbor {
                    address: address.addr,
                    number: *number,
                })
            }
            BgpOption::MedMetric(switch) => self.med_metric = Some(*switch),
            BgpOption::InterpretCommunities(switch) => self.interpret_communities = Some(*switch),
            BgpOption::DefaultMed { value, .. } => self.default_med = Some(*value),
            BgpOption::DefaultLocalPref { value, .. } => self.default_local_pref = Some(*value),
            BgpOption::Transport(_) => (),
        }
    }

    pub fn of(options: &[BgpOption]) -> BgpOptions
        ensures { result ≡ bgp_options (map bgp_setting_of options.now) }
    {
        let mut found = BgpOptions {
            local: None,
            neighbor: None,
            med_metric: None,
            interpret_communities: None,
            default_med: None,
            default_local_pref: None,
        };
        for option in options {
            found.set(option);
        }
        found
    }

    /// The number of the neighbour's autonomous system.
    pub fn remote(&self) -> Option<Num>
        ensures { result ≡ defaults.remote self.now }
    {
        match self.neighbor {
            None => None,
            Some(neighbor) => Some(neighbor.number),
        }
    }
}
