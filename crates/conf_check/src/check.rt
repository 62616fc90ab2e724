ghost use Rattle.std.specs.Prelude.{◌≡◌, None, IfOk, MatchResult};
ghost use Rattle.conf_ast.specs.Configurations.{configuration_of};
ghost use Rattle.conf_check.specs.Behind.{at_start};
ghost use Rattle.conf_check.specs.Checked.{IsChecked};
ghost use Rattle.conf_check.specs.Refused.{IsFault, refusal_of};

use crate::checked::Checked;
use conf_ast::ConfFault;
use conf_ast::configurations::Config;
use std::alloc::Global;

/// What a configuration comes to, or the first by place of what is refused in it, at one place the
/// first by its number. BIRD User's Guide, "Configuration".
pub fn check_config(alloc: Global, config: &Config<'_>) -> Result<Checked, ConfFault>
    ensures answer { MatchResult result
        (λ _. refusal_of (at_start config.now.text.now)
        (configuration_of config.now.statements.items) ≡ None)
        (λ fault. IsFault fault
        (refusal_of (at_start config.now.text.now)
        (configuration_of config.now.statements.items))) }
    ensures checked { IfOk result
        (IsChecked config.now.text.now (configuration_of config.now.statements.items)) }
{
    let mut checked = Checked::start(alloc, config.text)?;
    for statement in &config.statements {
        checked.check(alloc, config.text, statement)?;
    }
    Ok(checked)
}
