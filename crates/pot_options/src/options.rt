ghost use Rattle.std.specs.Prelude.{◌≡◌, option_map};
ghost use Rattle.pot_options.specs.Options.{given};
ghost use Rattle.pot_options.specs.Apps.{HasUses, uses_of};

use clap::ArgMatches;
use std::marker::Model;

/// The options that words spell. Contracts see the list of their names and values, in the order of
/// the words.
#[derive(Drop)]
pub struct Options<'a> {
    matches: ArgMatches<'a>,
}

impl<'a> Model for Options<'a> {
    ghost use Rattle.std.specs.Prelude.{List, ℕ};
    ghost use Rattle.pot_options.specs.Apps.{HasUses, uses_of};

    ghost Value = { List (List ℕ × List ℕ) };

    ghost view = { λ o. uses_of o.matches };

    ghost invariant = { λ o. HasUses o.matches (uses_of o.matches) };
}

impl<'a> Options<'a> {
    /// The options of these matches.
    pub(crate) fn of(matches: ArgMatches<'a>) -> Options<'a>
        requires { HasUses matches (uses_of matches) }
        ensures { result ≡ uses_of matches.entry }
    {
        Options { matches }
    }

    /// The value of the option `name`. `None` where it is not given.
    pub fn value(&self, name: &str) -> Option<&'a str>
        ensures { option_map (λ s. s.now) result ≡ given self.now name.now }
    {
        self.matches.get_str(name)
    }
}
