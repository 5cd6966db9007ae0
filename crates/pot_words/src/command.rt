ghost use Rattle.std.specs.Prelude.{◌≡◌, ◌≢◌, MatchOption};
ghost use Rattle.pot_words.specs.Tasks.{command_name};
ghost use Rattle.pot_words.specs.declared.command.Command.{Command};

/// The first word of the command line.
#[derive(Clone, Copy)]
pub(crate) enum Command {
    Init,
    Run,
    Generate,
    Recover,
    Drill,
    Audit,
}

impl Command {
    /// The command of this name. `None` exactly where no command has it.
    pub(crate) fn named(word: &str) -> Option<Command>
        ensures { MatchOption result ((c : Command) → word.now ≢ command_name c)
            (λ c. word.now ≡ command_name c) }
    {
        match word {
            "init" => Some(Command::Init),
            "run" => Some(Command::Run),
            "generate" => Some(Command::Generate),
            "recover" => Some(Command::Recover),
            "drill" => Some(Command::Drill),
            "audit" => Some(Command::Audit),
            _ => None,
        }
    }
}
