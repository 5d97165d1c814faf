ghost use Rattle.std.specs.Prelude.{◌≡◌};
ghost use Rattle.ifl_conf.specs.Options.{command_named, writes_files, option_text, option_named, has_value, takes};

/// The name of a command.
#[derive(Clone, Copy, Debug)]
pub(crate) enum CommandName {
    Send,
    Gen,
    Trace,
    Check,
}

/// The name of an option.
#[derive(Clone, Copy, Debug)]
pub(crate) enum OptionName {
    Wire,
    Order,
    SettingsFile,
    Input,
    Host,
    Ring,
    Seed,
    Senders,
    Frames,
}

impl OptionName {
    /// How the option is written.
    pub(crate) fn text(self) -> &'static str
        ensures { result.now ≡ option_text self }
    {
        match self {
            OptionName::Wire => "--wire",
            OptionName::Order => "--order",
            OptionName::SettingsFile => "--settings",
            OptionName::Input => "--in",
            OptionName::Host => "--host",
            OptionName::Ring => "--ring",
            OptionName::Seed => "--seed",
            OptionName::Senders => "--senders",
            OptionName::Frames => "--frames",
        }
    }

    /// Whether the option has a value.
    pub(crate) fn has_value(self) -> bool
        ensures { result ≡ has_value self }
    {
        match self {
            OptionName::Ring => false,
            _ => true,
        }
    }

    /// The option that is written so.
    #[tactic(auto, unfolding(crate::specs::Options::option_named))]
    pub(crate) fn named(text: &str) -> Option<OptionName>
        ensures { result ≡ option_named text.now }
    {
        match text {
            "--wire" => Some(OptionName::Wire),
            "--order" => Some(OptionName::Order),
            "--settings" => Some(OptionName::SettingsFile),
            "--in" => Some(OptionName::Input),
            "--host" => Some(OptionName::Host),
            "--ring" => Some(OptionName::Ring),
            "--seed" => Some(OptionName::Seed),
            "--senders" => Some(OptionName::Senders),
            "--frames" => Some(OptionName::Frames),
            _ => None,
        }
    }
}

impl CommandName {
    /// The command that is written so.
    #[tactic(auto, unfolding(crate::specs::Options::command_named))]
    pub(crate) fn named(text: &str) -> Option<CommandName>
        ensures { result ≡ command_named text.now }
    {
        match text {
            "send" => Some(CommandName::Send),
            "gen" => Some(CommandName::Gen),
            "trace" => Some(CommandName::Trace),
            "check" => Some(CommandName::Check),
            _ => None,
        }
    }

    /// Whether the command writes files.
    pub(crate) fn writes_files(self) -> bool
        ensures { result ≡ writes_files self }
    {
        matches!(self, CommandName::Send | CommandName::Gen)
    }

    /// Whether the command has this option.
    pub(crate) fn takes(self, option: OptionName) -> bool
        ensures { result ≡ takes self option }
    {
        match (self, option) {
            (_, OptionName::Wire | OptionName::Order) => match self {
                CommandName::Trace => false,
                _ => true,
            },
            (
                CommandName::Send,
                OptionName::SettingsFile | OptionName::Input | OptionName::Host | OptionName::Ring,
            ) => true,
            (
                CommandName::Gen,
                OptionName::SettingsFile
                | OptionName::Ring
                | OptionName::Seed
                | OptionName::Senders
                | OptionName::Frames,
            ) => true,
            (CommandName::Check, OptionName::SettingsFile) => true,
            _ => false,
        }
    }
}
