ghost use Rattle.std.specs.Prelude.{◌≡◌, map};
ghost use Rattle.ifl_conf.specs.Served.{is_form_served};
ghost use Rattle.ifl_conf.specs.GivenOption.{given};

use crate::front::GivenOption;
use crate::grammar::is_given;
use crate::words::{CommandName, OptionName};

// What the words may say and the program does not do yet. It is refused until then.

/// Whether the program does what a command asks for with these options.
#[tactic(auto, unfolding(crate::specs::Served::is_form_served))]
pub(crate) fn is_form_served(command: CommandName, options: &[GivenOption]) -> bool
    ensures { result ≡ is_form_served command (map given options.now) }
{
    match command {
        CommandName::Send => !is_given(options, OptionName::Input),
        CommandName::Trace => true,
        CommandName::Gen | CommandName::Check => false,
    }
}
